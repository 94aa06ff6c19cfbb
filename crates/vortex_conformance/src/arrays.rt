//! Questions on arrays.

use crate::answers::Refusal;
use crate::scalars::{MOST_LEVELS, row_text};
use crate::words::buffer_of;
use std::alloc::Global;
use vortex_array::{Array, ArrayContext, ArrayParts};
use vortex_dtype::DType;
use vortex_scalar::Scalar;

/// The rows that a body stands for, under names of encodings, how many rows there are, and a type.
pub(crate) fn rows_answer(
    alloc: Global,
    names: &str,
    count: &str,
    dtype: &str,
    body: &str,
) -> Result<String, Refusal> {
    let context = context_of(alloc, names)?;
    let Ok(count) = count.parse::<usize>() else {
        return Err(Refusal::Unknown);
    };
    let dtype = DType::from_proto(alloc, buffer_of(alloc, dtype)?.as_slice())?;
    let parts = ArrayParts::try_new(alloc, buffer_of(alloc, body)?)?;
    let array = parts.decode(alloc, &context, &dtype, count)?;
    rows_text(alloc, &array)
}

/// The names of encodings, with commas between them.
fn context_of(alloc: Global, names: &str) -> Result<ArrayContext, Refusal> {
    let mut ids = Vec::new(alloc);
    if names != "-" {
        for name in names.split(',') {
            ids.push(name)?;
        }
    }
    Ok(ArrayContext::from_ids(alloc, ids.as_slice())?)
}

/// Each row behind a blank.
fn rows_text(alloc: Global, array: &Array) -> Result<String, Refusal> {
    let mut text = String::from_str(alloc, "ok")?;
    for i in 0..array.len() {
        let row = Scalar::try_new(array.dtype().try_clone(alloc)?, array.value_at(alloc, i)?)?;
        text.push_str(" ")?;
        text.push_str(row_text(alloc, &row, MOST_LEVELS)?.as_str())?;
    }
    Ok(text)
}
