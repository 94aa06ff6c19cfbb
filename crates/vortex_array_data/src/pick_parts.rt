//! What is in the rows that are picked: which of the elements of lists.

ghost use Rattle.std.specs.Prelude.{◌≡◌, ◌≤◌, ◌<◌, ◌++◌, ◌-◌, length, replicate, IfSome, MatchResult, Some, true};
ghost use Rattle.std.specs.List.{All};
ghost use Rattle.vortex_mask.specs.Truths.{places_of};
ghost use Rattle.vortex_node_rows.specs.RowsOf.{most_rows};
ghost use Rattle.vortex_array_data.specs.inner.Picked.{from_on, shown_places};
ghost use Rattle.vortex_array_data.specs.inner.Spans.{spans};
ghost use Rattle.vortex_array_data.specs.inner.PickedPlaces.{start_in, AreParts};

use crate::error::ArrayError;
use crate::made::MOST_ROWS;
use std::alloc::Global;
use vortex_leaves::Offsets;
use vortex_mask::{Mask, MaskBuilder, MaskError};

/// Where the elements of lists lie, which are joined: between offsets, or so many in each list.
#[derive(Clone, Copy)]
pub enum Parts<'a> {
    Between(&'a Offsets),
    Even(usize),
}

/// Where the elements of list i start, of n lists whose elements end there.
pub(crate) fn start(parts: &Parts, n: usize, end: usize, i: usize) -> usize
    requires parts { AreParts parts.now n end }
    requires index { i ≤ n }
    ensures { result ≡ start_in parts.now i }
{
    let _ = (n, end);
    match parts {
        Parts::Between(offsets) => offsets.get(i) as usize,
        Parts::Even(size) => i * *size,
    }
}

/// So many more of a truth value.
fn repeated(given: MaskBuilder, count: usize, value: bool) -> Result<MaskBuilder, ArrayError>
    ensures { MatchResult result (λ b. b ≡ given ++ replicate count value)
        (λ e. e ≡ ArrayError.OutOfMemory) }
{
    let mut out = given;
    for i in 0..count {
        let _ = i;
        let Ok(()) = out.push(value) else {
            return Err(ArrayError::OutOfMemory);
        };
    }
    Ok(out)
}

/// For each element whether the mask is true at its list.
pub(crate) fn spread_mask(
    alloc: Global,
    parts: &Parts,
    mask: &Mask,
    end: usize,
) -> Result<Mask, ArrayError>
    requires { AreParts parts.now (length mask.now) end }
    ensures { MatchResult result
        (λ m. (length m ≡ end) × (places_of m ≡ spans (start_in parts.now) (places_of mask.now)))
        (λ e. e ≡ ArrayError.OutOfMemory) }
{
    let n = mask.len();
    let mut from = start(parts, n, end, 0);
    let mut out = repeated(MaskBuilder::new(alloc), from, false)?;
    for i in 0..n {
        let to = start(parts, n, end, i + 1);
        out = repeated(out, to - from, mask.value(i))?;
        from = to;
    }
    let out = repeated(out, end - from, false)?;
    match out.finish() {
        Ok(mask) => Ok(mask),
        Err(MaskError::OutOfMemory) => Err(ArrayError::OutOfMemory),
    }
}

/// The places from one up to another, behind others.
pub fn followed(given: Vec<u32>, from: usize, to: usize) -> Result<Vec<u32>, ArrayError>
    requires rise { from ≤ to }
    requires few { to ≤ most_rows }
    ensures { MatchResult result (λ v. v.items ≡ given.items ++ from_on (to - from) from)
        (λ e. e ≡ ArrayError.OutOfMemory) }
{
    let mut out = given;
    for place in from..to {
        out.push(place as u32)?;
    }
    Ok(out)
}

/// Whether lists of one size have more elements at these places than an array may have. What is
/// between offsets is counted where the offsets are joined.
pub(crate) fn are_too_many(parts: &Parts, places: &[u32]) -> bool
    ensures { result ≡ true → most_rows < length (spans (start_in parts.now) places.now) }
{
    match parts {
        Parts::Between(_) => false,
        Parts::Even(size) => places.len().saturating_mul(*size) > MOST_ROWS,
    }
}

/// The places at which the mask is true.
fn marked_places(alloc: Global, mask: &Mask, places: &[u32]) -> Result<Vec<u32>, ArrayError>
    requires { All (λ place. place < length mask.now) places.now }
    ensures { MatchResult result (λ v. v.items ≡ shown_places (Some mask.now) places.now)
        (λ e. e ≡ ArrayError.OutOfMemory) }
{
    let mut out = Vec::with_capacity(alloc, places.len())?;
    for place in places {
        if mask.value(*place as usize) {
            out.push(*place)?;
        }
    }
    Ok(out)
}

/// The places of rows, of n, that are not null.
pub fn valid_places(
    alloc: Global,
    validity: &Option<Mask>,
    n: usize,
    places: &[u32],
) -> Result<Vec<u32>, ArrayError>
    requires mask { IfSome validity.now (λ m. length m ≡ n) }
    requires in_range { All (λ place. place < n) places.now }
    ensures { MatchResult result (λ v. v.items ≡ shown_places validity.now places.now)
        (λ e. e ≡ ArrayError.OutOfMemory) }
{
    let _ = n;
    match validity {
        None => Ok(Vec::from_slice(alloc, places)?),
        Some(mask) => marked_places(alloc, mask, places),
    }
}

/// The places of the elements of the lists at places, of n lists whose elements end there.
pub(crate) fn spread_places(
    alloc: Global,
    parts: &Parts,
    n: usize,
    end: usize,
    places: &[u32],
) -> Result<Vec<u32>, ArrayError>
    requires parts { AreParts parts.now n end }
    requires in_range { All (λ place. place < n) places.now }
    requires few { end ≤ most_rows }
    ensures { MatchResult result
        (λ v. v.items ≡ spans (start_in parts.now) places.now)
        (λ e. e ≡ ArrayError.OutOfMemory) }
{
    let mut out = Vec::new(alloc);
    for place in places {
        let place = *place as usize;
        let from = start(parts, n, end, place);
        out = followed(out, from, start(parts, n, end, place + 1))?;
    }
    Ok(out)
}
