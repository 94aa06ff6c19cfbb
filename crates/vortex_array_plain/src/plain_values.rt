//! What values hold, one behind the other.

ghost use Rattle.std.specs.Prelude.{◌≡◌, ◌++◌, map, MatchResult, true};
ghost use Rattle.std.specs.List.{flat_map, list_any};
ghost use Rattle.vortex_types.specs.DTypes.{term_of};
ghost use Rattle.vortex_scalar_value.specs.Value.{is_null_value};
ghost use Rattle.vortex_array_plain.specs.PlainValues.{filled, is_valued, part_in, truth_in, values_in, IsDefault};

use std::alloc::Global;
use vortex_array_data::{ArrayError, same_value};
use vortex_mask::{Mask, MaskBuilder};
use vortex_scalar_text::default_value;
use vortex_scalar_value::{ScalarValue, ValueRef};
use vortex_types::DType;

/// Which of the values are not null.
pub(crate) fn valid_values(alloc: Global, values: &[ScalarValue]) -> Result<Mask, ArrayError>
    ensures { MatchResult result (λ m. m ≡ map is_valued values.now)
        (λ e. e ≡ ArrayError.OutOfMemory) }
{
    let Ok(mut mask) = MaskBuilder::with_capacity(alloc, values.len()) else {
        return Err(ArrayError::OutOfMemory);
    };
    for value in values {
        match mask.push(!value.is_null()) {
            Ok(()) => {}
            Err(_) => return Err(ArrayError::OutOfMemory),
        }
    }
    match mask.finish() {
        Ok(mask) => Ok(mask),
        Err(_) => Err(ArrayError::OutOfMemory),
    }
}

fn truth_in(value: &ScalarValue) -> bool
    ensures { result ≡ truth_in value.now }
{
    match value.value_ref() {
        ValueRef::Bool(truth) => truth,
        _ => false,
    }
}

/// The truth values.
pub(crate) fn truth_values(alloc: Global, values: &[ScalarValue]) -> Result<Mask, ArrayError>
    ensures { MatchResult result (λ m. m ≡ map truth_in values.now)
        (λ e. e ≡ ArrayError.OutOfMemory) }
{
    let Ok(mut mask) = MaskBuilder::with_capacity(alloc, values.len()) else {
        return Err(ArrayError::OutOfMemory);
    };
    for value in values {
        match mask.push(truth_in(value)) {
            Ok(()) => {}
            Err(_) => return Err(ArrayError::OutOfMemory),
        }
    }
    match mask.finish() {
        Ok(mask) => Ok(mask),
        Err(_) => Err(ArrayError::OutOfMemory),
    }
}

/// The values inside a list.
pub(crate) fn inside<'a>(value: &'a ScalarValue) -> &'a [ScalarValue]
    ensures { result.now ≡ values_in value.now }
{
    match value.value_ref() {
        ValueRef::List(values) => values,
        _ => &[],
    }
}

/// Values behind others.
fn with_values(
    alloc: Global,
    given: Vec<ScalarValue>,
    values: &[ScalarValue],
) -> Result<Vec<ScalarValue>, ArrayError>
    ensures { MatchResult result (λ vs. vs.items ≡ given.items ++ values.now)
        (λ e. e ≡ ArrayError.OutOfMemory) }
{
    let mut out = given;
    for value in values {
        out.push(same_value(alloc, value)?)?;
    }
    Ok(out)
}

/// The values inside of all lists.
pub(crate) fn all_inside(
    alloc: Global,
    values: &[ScalarValue],
) -> Result<Vec<ScalarValue>, ArrayError>
    ensures { MatchResult result (λ vs. vs.items ≡ flat_map values_in values.now)
        (λ e. e ≡ ArrayError.OutOfMemory) }
{
    let mut out = Vec::new(alloc);
    for value in values {
        out = with_values(alloc, out, inside(value))?;
    }
    Ok(out)
}

/// The value at a place of a list.
fn part(alloc: Global, value: &ScalarValue, i: usize) -> Result<ScalarValue, ArrayError>
    ensures { MatchResult result (λ v. v ≡ part_in i value.now)
        (λ e. e ≡ ArrayError.OutOfMemory) }
{
    match inside(value).get(i) {
        Some(part) => same_value(alloc, part),
        None => Ok(ScalarValue::null()),
    }
}

/// The values at one place of each list.
pub(crate) fn parts(
    alloc: Global,
    values: &[ScalarValue],
    i: usize,
) -> Result<Vec<ScalarValue>, ArrayError>
    ensures { MatchResult result (λ vs. vs.items ≡ map (part_in i) values.now)
        (λ e. e ≡ ArrayError.OutOfMemory) }
{
    let mut out = Vec::with_capacity(alloc, values.len())?;
    for value in values {
        out.push(part(alloc, value, i)?)?;
    }
    Ok(out)
}

/// Whether one of the values is null.
fn has_null(values: &[ScalarValue]) -> bool
    ensures { result ≡ list_any is_null_value values.now }
{
    values.iter().any(|value| value.is_null())
}

/// A value of the type, where one of the values is null.
pub(crate) fn fallback(
    alloc: Global,
    dtype: &DType,
    values: &[ScalarValue],
) -> Result<ScalarValue, ArrayError>
    ensures { MatchResult result
        (λ v. list_any is_null_value values.now ≡ true → IsDefault (term_of dtype.now) v)
        (λ e. e ≡ ArrayError.OutOfMemory) }
{
    if !has_null(values) {
        return Ok(ScalarValue::null());
    }
    match default_value(alloc, dtype.type_ref()) {
        Ok(value) => Ok(value),
        Err(_) => Err(ArrayError::OutOfMemory),
    }
}

/// The value, or another in place of null.
fn filled_one(
    alloc: Global,
    value: &ScalarValue,
    other: &ScalarValue,
) -> Result<ScalarValue, ArrayError>
    ensures { MatchResult result (λ v. v ≡ filled other.now value.now)
        (λ e. e ≡ ArrayError.OutOfMemory) }
{
    if value.is_null() {
        return same_value(alloc, other);
    }
    same_value(alloc, value)
}

/// The values, and another in place of each null.
pub(crate) fn filled(
    alloc: Global,
    values: &[ScalarValue],
    other: &ScalarValue,
) -> Result<Vec<ScalarValue>, ArrayError>
    ensures { MatchResult result (λ vs. vs.items ≡ map (filled other.now) values.now)
        (λ e. e ≡ ArrayError.OutOfMemory) }
{
    let mut out = Vec::with_capacity(alloc, values.len())?;
    for value in values {
        out.push(filled_one(alloc, value, other)?)?;
    }
    Ok(out)
}
