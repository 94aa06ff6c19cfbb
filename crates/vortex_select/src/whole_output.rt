//! From the bytes of a stream to those of the stream of the rows that are kept.

ghost use Rattle.std.specs.Prelude.{◌≡◌, ◌⊎◌, IfOk, IfErr, IsErrOf};
ghost use Rattle.vortex_select.specs.Theorem.{IsSomeStream};
ghost use Rattle.vortex_select.specs.inner.Prefixes.{IsMade, Reaches};

use crate::array_messages::{Frames, push_selected};
use crate::decoding::after_type;
use crate::error::SelectError;
use crate::message_parts::push_type;
use crate::primitive::primitive_array;
use crate::report::RowCounts;
use crate::words::Query;
use std::alloc::Global;

/// Where the output of so many arrays ends, and their counts.
#[derive(Clone, Copy)]
pub(crate) struct Prefix {
    end: usize,
    counts: RowCounts,
}

/// The whole output, before its first byte is written, with a prefix for each array.
#[derive(Drop)]
pub(crate) struct Output {
    pub(crate) bytes: Vec<u8>,
    pub(crate) counts: RowCounts,
    pub(crate) prefixes: Vec<Prefix>,
}

/// The counts of the arrays that lie whole in so many bytes.
pub(crate) fn counts_within(prefixes: &[Prefix], bytes: usize) -> RowCounts
    ensures { Reaches prefixes.now bytes result }
{
    let mut counts = RowCounts::NONE;
    for prefix in prefixes {
        if bytes < prefix.end {
            return counts;
        }
        counts = prefix.counts;
    }
    counts
}

/// The output for an input, or `Unbuilt` where the input is no stream of the form that is built so
/// far.
pub(crate) fn output_for(alloc: Global, query: &Query, input: &[u8]) -> Result<Output, SelectError>
    ensures made { IfOk result (λ output.
        IsMade query.now input.now output.bytes.items output.counts output.prefixes.items) }
    ensures unbuilt { IsErrOf result SelectError.Unbuilt → IsSomeStream input.now → ⊥ }
    ensures only { IfErr result (λ e. (e ≡ SelectError.Unbuilt) ⊎ (e ≡ SelectError.OutOfMemory)) }
{
    let Ok(mut rest) = after_type(input) else {
        return Err(SelectError::Unbuilt);
    };
    let mut bytes = Vec::with_capacity(alloc, input.len())?;
    push_type(&mut bytes)?;
    let mut counts = RowCounts::NONE;
    let mut prefixes = Vec::new(alloc);
    let mut frames = Frames::new(alloc)?;
    while !rest.is_empty() {
        let Ok((rows, after)) = primitive_array(rest) else {
            return Err(SelectError::Unbuilt);
        };
        let kept = push_selected(&mut bytes, &mut frames, query, rows)?;
        counts = RowCounts {
            arrays: counts.arrays + 1,
            read: counts.read + (rows.len() / 8) as u128,
            kept: counts.kept + kept as u128,
        };
        prefixes.push(Prefix {
            end: bytes.len(),
            counts,
        })?;
        rest = after;
    }
    Ok(Output {
        bytes,
        counts,
        prefixes,
    })
}
