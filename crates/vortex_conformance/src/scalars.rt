//! Questions on scalars.

use crate::answers::Refusal;
use crate::words::{buffer_of, word_of};
use std::alloc::Global;
use std::cmp::Ordering;
use vortex_scalar::Scalar;

/// How deep a type nests at most.
pub(crate) const MOST_LEVELS: usize = 64;

/// The type of a scalar as text, and its row.
pub(crate) fn scalar_answer(alloc: Global, bytes: &str) -> Result<String, Refusal> {
    scalar_text(alloc, &scalar_of(alloc, bytes)?)
}

/// The answer that tells a scalar: the text of its type, and its row.
pub(crate) fn scalar_text(alloc: Global, scalar: &Scalar) -> Result<String, Refusal> {
    let text = word_of(alloc, format!(in alloc; "{}", scalar.dtype())?.as_bytes())?;
    let row = row_text(alloc, scalar, MOST_LEVELS)?;
    Ok(format!(in alloc; "ok {text} {row}")?)
}

/// How two scalars compare.
pub(crate) fn order_answer(alloc: Global, one: &str, other: &str) -> Result<String, Refusal> {
    let one = scalar_of(alloc, one)?;
    let other = scalar_of(alloc, other)?;
    let text = match one.partial_cmp(&other) {
        None => "none",
        Some(Ordering::Less) => "Less",
        Some(Ordering::Equal) => "Equal",
        Some(Ordering::Greater) => "Greater",
    };
    Ok(String::from_str(alloc, text)?)
}

/// The scalar of a message.
pub(crate) fn scalar_of(alloc: Global, bytes: &str) -> Result<Scalar, Refusal> {
    let bytes = buffer_of(alloc, bytes)?;
    Ok(Scalar::from_proto(alloc, bytes.as_slice())?)
}

/// The row of a scalar whose type nests at most so deep.
#[cycle(rows)]
pub(crate) fn row_text(alloc: Global, scalar: &Scalar, levels: usize) -> Result<String, Refusal> {
    if levels == 0 {
        return Err(Refusal::Unknown);
    }
    if scalar.is_null() {
        return Ok(String::from_str(alloc, "null")?);
    }
    if let Some(view) = scalar.as_extension_opt() {
        return row_text(alloc, &view.storage(alloc)?, levels - 1);
    }
    if let Some(view) = scalar.as_list_opt() {
        return rows_text(alloc, view.elements(alloc)?, levels - 1);
    }
    if let Some(view) = scalar.as_struct_opt() {
        return rows_text(alloc, view.fields(alloc)?, levels - 1);
    }
    leaf_text(alloc, scalar)
}

/// Rows with commas between them.
#[cycle(rows)]
fn rows_text(alloc: Global, rows: Option<Vec<Scalar>>, levels: usize) -> Result<String, Refusal> {
    let mut text = String::from_str(alloc, "[")?;
    if let Some(rows) = rows {
        for (i, row) in rows.iter().enumerate() {
            if i > 0 {
                text.push_str(",")?;
            }
            text.push_str(row_text(alloc, row, levels)?.as_str())?;
        }
    }
    text.push_str("]")?;
    Ok(text)
}

/// The row of a scalar that has no parts.
fn leaf_text(alloc: Global, scalar: &Scalar) -> Result<String, Refusal> {
    if let Some(view) = scalar.as_bool_opt() {
        return Ok(format!(in alloc; "{}", view.value() == Some(true))?);
    }
    if let Some(view) = scalar.as_primitive_opt() {
        if let Some(number) = view.pvalue() {
            return Ok(format!(in alloc; "{}", number.as_i128())?);
        }
    }
    if let Some(view) = scalar.as_decimal_opt() {
        if let Some(number) = view.decimal_value() {
            return Ok(format!(in alloc; "{}", number.as_i128())?);
        }
    }
    if let Some(view) = scalar.as_utf8_opt() {
        if let Some(text) = view.value_ref() {
            return bytes_text(alloc, text.as_bytes());
        }
    }
    if let Some(view) = scalar.as_binary_opt() {
        if let Some(bytes) = view.value_ref() {
            return bytes_text(alloc, bytes);
        }
    }
    Err(Refusal::Unknown)
}

/// `x`, and the bytes as pairs of digits.
pub(crate) fn bytes_text(alloc: Global, bytes: &[u8]) -> Result<String, Refusal> {
    let digits = hex::encode(alloc, bytes)?;
    Ok(format!(in alloc; "x{digits}")?)
}
