//! Questions on types in flat buffers.

use crate::answers::Refusal;
use crate::words::{buffer_of, word_of};
use std::alloc::Global;
use vortex_dtype::{DType, DTypeView};

/// The type at a place, or at the root, as bytes and as text.
pub(crate) fn type_answer(alloc: Global, place: &str, bytes: &str) -> Result<String, Refusal> {
    let dtype = if place == "root" {
        type_at_root(alloc, bytes)?
    } else {
        type_at(alloc, place, bytes)?
    };
    let bytes = word_of(alloc, dtype.write_flatbuffer_bytes(alloc)?.as_slice())?;
    let text = word_of(alloc, format!(in alloc; "{dtype}")?.as_bytes())?;
    Ok(format!(in alloc; "ok {bytes} {text}")?)
}

/// How two types at roots compare.
pub(crate) fn same_answer(alloc: Global, one: &str, other: &str) -> Result<String, Refusal> {
    let one = type_at_root(alloc, one)?;
    let other = type_at_root(alloc, other)?;
    let equal = one == other;
    let same = one.eq_ignore_nullability(&other);
    let subset = one.eq_with_nullability_subset(&other);
    let superset = one.eq_with_nullability_superset(&other);
    Ok(format!(in alloc; "{equal} {same} {subset} {superset}")?)
}

fn type_at_root(alloc: Global, bytes: &str) -> Result<DType, Refusal> {
    let view = DTypeView::root(buffer_of(alloc, bytes)?)?;
    Ok(view.value(alloc)?)
}

fn type_at(alloc: Global, place: &str, bytes: &str) -> Result<DType, Refusal> {
    let Ok(place) = place.parse::<usize>() else {
        return Err(Refusal::Unknown);
    };
    Ok(DType::try_from_view(alloc, buffer_of(alloc, bytes)?, place)?)
}
