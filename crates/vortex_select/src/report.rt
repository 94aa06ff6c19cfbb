//! What a run answers.

ghost use Rattle.std.specs.Prelude.{◌≡◌};
ghost use Rattle.vortex_select.specs.Report.{status_of};

use crate::error::SelectError;

/// What [`run`](crate::run) did.
#[derive(Clone, Copy, Debug, PartialEq, Eq)]
pub struct RunReport {
    /// The status that the program exits with.
    pub status: u8,
    /// The counts of the arrays that lie whole in what was written.
    pub counts: RowCounts,
    /// Why the run ended early, and None where it did not.
    pub fault: Option<RunFault>,
}

/// The numbers of arrays, of their rows, and of the rows kept, over the arrays that were wholly
/// written.
#[derive(Clone, Copy, Debug, PartialEq, Eq)]
pub struct RowCounts {
    /// How many arrays were written.
    pub arrays: u128,
    /// How many rows these arrays had in the input.
    pub read: u128,
    /// How many of their rows were kept.
    pub kept: u128,
}

impl RowCounts {
    /// Of no array.
    pub const NONE: RowCounts = RowCounts {
        arrays: 0,
        read: 0,
        kept: 0,
    };
}

/// Why a run ended early.
#[derive(Clone, Copy, Debug, PartialEq, Eq)]
pub enum RunFault {
    /// The words are not `select . OP i64:NUMBER`.
    BadWords,
    /// The words ask for a selection, which failed.
    Select(SelectError),
}

/// The exit status after a fault, or after none.
pub(crate) fn status_of(fault: Option<RunFault>) -> u8
    ensures { result ≡ status_of fault }
{
    match fault {
        None => 0,
        Some(RunFault::BadWords) => 2,
        Some(RunFault::Select(SelectError::ReadLimit)) => 6,
        Some(RunFault::Select(SelectError::ReadFault)) => 7,
        Some(RunFault::Select(SelectError::WriteFault)) => 8,
        Some(RunFault::Select(SelectError::OutOfMemory)) => 9,
        Some(RunFault::Select(SelectError::Unbuilt)) => 10,
    }
}
