//! How the rows of an array compare with values.

ghost use Rattle.std.specs.Prelude.{◌≡◌, ◌≤◌, ◌<◌, length, slice_range};
ghost use Rattle.std.specs.Option.{IsSome};
ghost use Rattle.std.specs.List.{AllByRecursion};
ghost use Rattle.vortex_terms.specs.Row.{rows_from};
ghost use Rattle.vortex_terms.specs.Order.{row_cmp, rows_cmp};
ghost use Rattle.vortex_scalar_value.specs.Value.{values_from};
ghost use Rattle.vortex_value_rows.specs.RowOf.{row_of, row_under, rows_by};
ghost use Rattle.vortex_value_rows.specs.HeldRow.{rows_under};
ghost use Rattle.vortex_value_rows.specs.Inside.{every};
ghost use Rattle.vortex_array_compare.specs.inner.ComparedRows.{row_in, rows_at, rows_beside, HaveRows};

use crate::compare_values::{bytes_order, null_order, truth_order, whole_order};
use std::cmp::Ordering;
use vortex_array_data::{Array, Content, is_unmasked};
use vortex_scalar_value::ScalarValue;
use vortex_value_rows::{RowRef, compare, row_ref};

/// How row `i` compares with the row that the value is.
#[cycle(ordered)]
pub(crate) fn row_order(array: &Array, i: usize, value: &ScalarValue) -> Ordering
    requires place { i < length array.now.rows }
    requires row { IsSome (row_of array.now.dtype value.now) }
    ensures { result ≡ row_cmp (row_in array.now.rows i) (row_under array.now.dtype value.now) }
{
    let other = row_ref(array.dtype.type_ref(), value);
    if !is_unmasked(&array.held.validity, i) {
        return null_order(&other);
    }
    match &array.held.content {
        Content::Nulls => null_order(&other),
        Content::Truths(mask) => truth_order(mask.value(i), &other),
        Content::Numbers(numbers) => whole_order(numbers.number(i), &other),
        Content::Decimals(decimals) => whole_order(decimals.number(i), &other),
        Content::Texts(texts) => bytes_order(texts.piece(i), &other),
        Content::Lists(offsets, elements) => match other {
            RowRef::List(values) => {
                let (from, to) = offsets.bounds(i);
                rows_order(elements, from as usize, to as usize, values)
            }
            _ => Ordering::Greater,
        },
        Content::FixedLists(size, elements) => match other {
            RowRef::List(values) => {
                let size = *size as usize;
                rows_order(elements, i * size, i * size + size, values)
            }
            _ => Ordering::Greater,
        },
        Content::Structs(fields) => match other {
            RowRef::List(values) => fields_order(fields, i, values),
            _ => Ordering::Greater,
        },
        Content::Storage(storage) => row_order(storage, i, value),
        Content::Constant(mine) => compare(array.dtype.type_ref(), mine, value),
    }
}

/// How the list of the rows from one place to another compares with that of values.
#[cycle(ordered)]
fn rows_order(array: &Array, from: usize, to: usize, values: &[ScalarValue]) -> Ordering
    requires rise { from ≤ to }
    requires within { to ≤ length array.now.rows }
    requires rows { IsSome (rows_by (row_of array.now.dtype) (values_from values.now)) }
    ensures { result ≡ rows_cmp (rows_from (slice_range array.now.rows from to))
        (rows_under (every array.now.dtype) (values_from values.now)) }
{
    let mut i = from;
    let mut rest = values;
    while let [value, others @ ..] = rest {
        if i >= to {
            return Ordering::Less;
        }
        match row_order(array, i, value) {
            Ordering::Equal => {}
            other => return other,
        }
        i += 1;
        rest = others;
    }
    if i < to {
        return Ordering::Greater;
    }
    Ordering::Equal
}

/// How the list of the fields' rows at a place compares with that of values.
#[cycle(ordered)]
fn fields_order(fields: &[Array], i: usize, values: &[ScalarValue]) -> Ordering
    requires places { AllByRecursion (λ f. i < length f.rows) fields.now }
    requires rows { HaveRows fields.now values.now }
    ensures { result ≡ rows_cmp (rows_at i fields.now) (rows_beside fields.now values.now) }
{
    let mut rest = fields;
    let mut others = values;
    while let [field, fields @ ..] = rest {
        let [value, values @ ..] = others else {
            return Ordering::Equal;
        };
        match row_order(field, i, value) {
            Ordering::Equal => {}
            other => return other,
        }
        rest = fields;
        others = values;
    }
    Ordering::Equal
}
