//! The line that a run leaves on its note.

ghost use Rattle.std.specs.Prelude.{◌≡◌, ◌+◌, ◌≤◌, ◌++◌, None, length, codes, decimal};
ghost use Rattle.arrayvec.specs.ArrayString.{array_string_len};
ghost use Rattle.vortex_select.specs.Report.{note_of, name_of};

use crate::error::SelectError;
use crate::report::{RowCounts, RunFault};
use arrayvec::ArrayString;
use itoa::Buffer;

/// The longest line: three numbers of 128 bits and the words between them.
const ROOM: usize = 160;

/// The line, with its newline.
pub(crate) fn line(counts: &RowCounts, fault: Option<RunFault>) -> ArrayString<ROOM>
    ensures { result.bytes ≡ note_of counts.now fault }
{
    match fault {
        None => counts_line(counts),
        Some(fault) => fault_line(fault),
    }
}

fn counts_line(counts: &RowCounts) -> ArrayString<ROOM>
    ensures { result.bytes ≡ note_of counts.now None }
{
    let mut line = ArrayString::new();
    line.push_str("arrays ");
    push_number(&mut line, counts.arrays);
    line.push_str(", read ");
    push_number(&mut line, counts.read);
    line.push_str(", kept ");
    push_number(&mut line, counts.kept);
    line.push_str("\n");
    line
}

fn push_number(line: &mut ArrayString<ROOM>, number: u128)
    requires { array_string_len line.old + 40 ≤ 160 }
    ensures bytes { line.new.bytes ≡ line.old.bytes ++ decimal number }
    ensures len { array_string_len line.new ≤ array_string_len line.old + 40 }
{
    let mut digits = Buffer::new();
    line.push_str(digits.format(number));
}

fn fault_line(fault: RunFault) -> ArrayString<ROOM>
    ensures { result.bytes ≡ codes "error: " ++ name_of fault ++ codes "\n" }
{
    let mut line = ArrayString::new();
    line.push_str("error: ");
    line.push_str(name(fault));
    line.push_str("\n");
    line
}

fn name(fault: RunFault) -> &'static str
    ensures name { result.now ≡ name_of fault }
    ensures short { length result.now ≤ 11 }
{
    match fault {
        RunFault::BadWords => "BadWords",
        RunFault::Select(SelectError::ReadFault) => "ReadFault",
        RunFault::Select(SelectError::WriteFault) => "WriteFault",
        RunFault::Select(SelectError::ReadLimit) => "ReadLimit",
        RunFault::Select(SelectError::OutOfMemory) => "OutOfMemory",
        RunFault::Select(SelectError::Unbuilt) => "Unbuilt",
    }
}
