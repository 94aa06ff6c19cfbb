//! Questions on what is made of scalars.

use crate::answers::Refusal;
use crate::scalars::{MOST_LEVELS, bytes_text, row_text, scalar_of, scalar_text};
use crate::words::buffer_of;
use std::alloc::Global;
use vortex_dtype::DType;
use vortex_scalar::{PrimitiveScalar, Scalar, ScalarError};
use vortex_value::NumericOperator;

/// The row of a scalar cast to the type of a message.
pub(crate) fn cast_answer(alloc: Global, scalar: &str, dtype: &str) -> Result<String, Refusal> {
    let scalar = scalar_of(alloc, scalar)?;
    let dtype = DType::from_proto(alloc, buffer_of(alloc, dtype)?.as_slice())?;
    let cast = scalar.cast(alloc, &dtype)?;
    let row = row_text(alloc, &cast, MOST_LEVELS)?;
    Ok(format!(in alloc; "ok {row}")?)
}

/// The result of an operator on two numbers.
pub(crate) fn numeric_answer(
    alloc: Global,
    op: &str,
    one: &str,
    other: &str,
) -> Result<String, Refusal> {
    let Some(op) = operator_of(op) else {
        return Err(Refusal::Unknown);
    };
    let one = scalar_of(alloc, one)?;
    let other = scalar_of(alloc, other)?;
    match result_of(op, &one, &other)? {
        Some(result) => scalar_text(alloc, &result.into_scalar()),
        None => Ok(String::from_str(alloc, "none")?),
    }
}

/// The operator of a word.
fn operator_of(word: &str) -> Option<NumericOperator> {
    match word {
        "Add" => Some(NumericOperator::Add),
        "Sub" => Some(NumericOperator::Sub),
        "RSub" => Some(NumericOperator::RSub),
        "Mul" => Some(NumericOperator::Mul),
        "Div" => Some(NumericOperator::Div),
        "RDiv" => Some(NumericOperator::RDiv),
        _ => None,
    }
}

/// The result on two scalars. Those that are no numbers of one kind are a WrongType.
fn result_of<'a>(
    op: NumericOperator,
    one: &'a Scalar,
    other: &'a Scalar,
) -> Result<Option<PrimitiveScalar<'a>>, ScalarError> {
    match (one.as_primitive_opt(), other.as_primitive_opt()) {
        (Some(one), Some(other)) => {
            if one.ptype() == other.ptype() {
                Ok(one.checked_binary_numeric(&other, op))
            } else {
                Err(ScalarError::WrongType)
            }
        }
        _ => Err(ScalarError::WrongType),
    }
}

/// The bounds of a text or of bytes that have at most so many bytes.
pub(crate) fn bounds_answer(alloc: Global, length: &str, bytes: &str) -> Result<String, Refusal> {
    let Ok(length) = length.parse::<usize>() else {
        return Err(Refusal::Unknown);
    };
    let scalar = scalar_of(alloc, bytes)?;
    if scalar.dtype().is_utf8() {
        text_bounds(alloc, &scalar, length)
    } else if scalar.dtype().is_binary() {
        bytes_bounds(alloc, &scalar, length)
    } else {
        Err(Refusal::Scalar(ScalarError::WrongType))
    }
}

fn text_bounds(alloc: Global, scalar: &Scalar, length: usize) -> Result<String, Refusal> {
    let (Some(view), Some(again)) = (scalar.as_utf8_opt(), scalar.as_utf8_opt()) else {
        return Err(Refusal::Scalar(ScalarError::WrongType));
    };
    let lower = view.lower_bound(alloc, length)?;
    let lower = text_row(alloc, lower.value_ref())?;
    let upper = match again.upper_bound(alloc, length)? {
        Some(upper) => text_row(alloc, upper.value_ref())?,
        None => String::from_str(alloc, "none")?,
    };
    Ok(format!(in alloc; "ok {lower} {upper}")?)
}

fn bytes_bounds(alloc: Global, scalar: &Scalar, length: usize) -> Result<String, Refusal> {
    let (Some(view), Some(again)) = (scalar.as_binary_opt(), scalar.as_binary_opt()) else {
        return Err(Refusal::Scalar(ScalarError::WrongType));
    };
    let lower = view.lower_bound(alloc, length)?;
    let lower = bytes_row(alloc, lower.value_ref())?;
    let upper = match again.upper_bound(alloc, length)? {
        Some(upper) => bytes_row(alloc, upper.value_ref())?,
        None => String::from_str(alloc, "none")?,
    };
    Ok(format!(in alloc; "ok {lower} {upper}")?)
}

fn text_row(alloc: Global, text: Option<&str>) -> Result<String, Refusal> {
    match text {
        Some(text) => bytes_text(alloc, text.as_bytes()),
        None => Ok(String::from_str(alloc, "null")?),
    }
}

fn bytes_row(alloc: Global, bytes: Option<&[u8]>) -> Result<String, Refusal> {
    match bytes {
        Some(bytes) => bytes_text(alloc, bytes),
        None => Ok(String::from_str(alloc, "null")?),
    }
}
