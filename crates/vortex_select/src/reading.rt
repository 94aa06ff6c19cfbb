//! Reading a source to its end.

ghost use Rattle.std.specs.Prelude.{◌≡◌, IfOk, IfErr, IfSome, OnOk};
ghost use Rattle.vortex_stream.specs.Reading.{ReadToEnd};
ghost use Rattle.vortex_select.specs.Answer.{most_reads};
ghost use Rattle.vortex_select.specs.inner.Stops.{StopsReading};

use crate::error::SelectError;
use std::alloc::Global;
use vortex_stream::{Source, SourceFailed};

/// How many bytes each read asks for.
const PIECE: usize = 4096;

/// All that the source gives, up to its end, in at most `u64::MAX` reads.
pub(crate) fn read_to_end<S: Source>(alloc: Global, source: &mut S) -> Result<Vec<u8>, SelectError>
    ensures bytes { IfOk result (λ all. IfSome (S.rest source.old) (λ rest. all.items ≡ rest)) }
    ensures end { OnOk result (ReadToEnd most_reads
        (S.counts source.old) (S.counts source.new) (S.rest source.old) (S.rest source.new)) }
    ensures stopped { IfErr result (StopsReading
        (S.counts source.old) (S.counts source.new) (S.rest source.old) (S.rest source.new)) }
{
    let mut all = Vec::new(alloc);
    let mut piece = [0u8; PIECE];
    for _ in 0..u64::MAX {
        match source.read(&mut piece) {
            Ok(0) => return Ok(all),
            Ok(count) => all.extend_from_slice(&piece[..count])?,
            Err(SourceFailed) => return Err(SelectError::ReadFault),
        }
    }
    Err(SelectError::ReadLimit)
}
