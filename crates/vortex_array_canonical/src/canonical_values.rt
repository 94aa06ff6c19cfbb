//! A value in all rows of an array, laid out.

ghost use Rattle.std.specs.Prelude.{◌≡◌, ◌≤◌, ◌<◌, length, IfSome, MatchResult, true};
ghost use Rattle.vortex_terms.specs.Row.{copies, null_row};
ghost use Rattle.vortex_terms.specs.Term.{null};
ghost use Rattle.vortex_terms.specs.FromColumns.{masked};
ghost use Rattle.vortex_types.specs.DTypes.{term_of};
ghost use Rattle.vortex_value_rows.specs.RowOf.{row_under};
ghost use Rattle.vortex_node_rows.specs.RowsOf.{most_rows};
ghost use Rattle.vortex_array_data.specs.Constants.{is_canonical};
ghost use Rattle.vortex_array_data.specs.Content.{is_maskable, IsMask};
ghost use Rattle.vortex_array_data.specs.ValidRows.{valid_at};
ghost use Rattle.vortex_array_plain.specs.PlainValues.{FitsValue, RefusesRows};
ghost use Rattle.vortex_array_canonical.specs.inner.SameRows.{choices_of, place_of, places_of_mask, value_where, values_of_mask, IsRepeated};

use std::alloc::Global;
use vortex_array_data::{Array, ArrayError, Content, Held, Picks, is_unmasked, pick, same_value};
use vortex_array_plain::plain;
use vortex_mask::Mask;
use vortex_scalar_value::ScalarValue;
use vortex_types::DType;

/// The value, and null where there is a mask.
fn choices(
    alloc: Global,
    value: &ScalarValue,
    validity: &Option<Mask>,
) -> Result<Vec<ScalarValue>, ArrayError>
    ensures { MatchResult result (λ vs. vs.items ≡ choices_of value.now validity.now)
        (λ e. e ≡ ArrayError.OutOfMemory) }
{
    let mut out = Vec::with_capacity(alloc, 2)?;
    out.push(same_value(alloc, value)?)?;
    if validity.is_some() {
        out.push(ScalarValue::null())?;
    }
    Ok(out)
}

/// Place 0, and place 1 where the mask is false.
fn place(validity: &Option<Mask>, i: usize) -> u32
    requires { IfSome validity.now (λ m. i < length m) }
    ensures { result ≡ place_of (valid_at validity.now i) }
{
    if is_unmasked(validity, i) {
        return 0;
    }
    1
}

/// For each row place 0, and place 1 where the mask is false.
fn places(alloc: Global, validity: &Option<Mask>, n: usize) -> Result<Vec<u32>, ArrayError>
    requires { IfSome validity.now (λ m. length m ≡ n) }
    ensures { MatchResult result (λ ps. ps.items ≡ places_of_mask n validity.now)
        (λ e. e ≡ ArrayError.OutOfMemory) }
{
    let mut out = Vec::with_capacity(alloc, n)?;
    for i in 0..n {
        out.push(place(validity, i))?;
    }
    Ok(out)
}

/// The value, and null where the mask is false.
fn value_at(
    alloc: Global,
    value: &ScalarValue,
    validity: &Option<Mask>,
    i: usize,
) -> Result<ScalarValue, ArrayError>
    requires { IfSome validity.now (λ m. i < length m) }
    ensures { MatchResult result (λ v. v ≡ value_where value.now (valid_at validity.now i))
        (λ e. e ≡ ArrayError.OutOfMemory) }
{
    if is_unmasked(validity, i) {
        return same_value(alloc, value);
    }
    Ok(ScalarValue::null())
}

/// The same for each row.
fn each_value(
    alloc: Global,
    value: &ScalarValue,
    validity: &Option<Mask>,
    n: usize,
) -> Result<Vec<ScalarValue>, ArrayError>
    requires { IfSome validity.now (λ m. length m ≡ n) }
    ensures { MatchResult result (λ vs. vs.items ≡ values_of_mask value.now n validity.now)
        (λ e. e ≡ ArrayError.OutOfMemory) }
{
    let mut out = Vec::with_capacity(alloc, n)?;
    for i in 0..n {
        out.push(value_at(alloc, value, validity, i)?)?;
    }
    Ok(out)
}

/// So many nulls of the type that has no other row.
fn nulls(n: usize) -> Array
    requires { n ≤ most_rows }
    ensures { (result.dtype ≡ null)
        × ((result.rows ≡ copies n null_row) × (is_canonical result.node ≡ true)) }
{
    let held = Held {
        content: Content::Nulls,
        validity: None,
    };
    Array::made(DType::Null, n, held)
}

/// So many rows of a value, null where the mask is false. The value and null are laid out once, and
/// each row is picked of the two. Where the two are too much, and no row may show the value, each
/// row is laid out by itself.
pub(crate) fn repeated(
    alloc: Global,
    dtype: &DType,
    value: &ScalarValue,
    validity: &Option<Mask>,
    n: usize,
) -> Result<Array, ArrayError>
    requires fit { FitsValue (term_of dtype.now) value.now }
    requires mask { IsMask n (is_maskable (term_of dtype.now)) validity.now }
    requires few { n ≤ most_rows }
    ensures { MatchResult result
        (IsRepeated (term_of dtype.now) value.now validity.now n)
        (RefusesRows (term_of dtype.now)
        (masked validity.now (copies n (row_under (term_of dtype.now) value.now)))) }
{
    if let DType::Null = dtype {
        return Ok(nulls(n));
    }
    let values = choices(alloc, value, validity)?;
    match plain(alloc, dtype, &values) {
        Ok(rows) => {
            let places = places(alloc, validity, n)?;
            let array = pick(alloc, &rows, &Picks::Places(&places))?;
            Ok(array)
        }
        Err(ArrayError::TooLarge) => {
            let values = each_value(alloc, value, validity, n)?;
            plain(alloc, dtype, &values)
        }
        Err(_) => Err(ArrayError::OutOfMemory),
    }
}
