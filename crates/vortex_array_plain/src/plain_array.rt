//! Arrays of values, without constants.

ghost use Rattle.std.specs.Prelude.{◌≡◌, ◌≤◌, ◌<◌, ◌*◌, length, map, MatchResult, Some, false};
ghost use Rattle.std.specs.List.{AllByRecursion, flat_map};
ghost use Rattle.vortex_terms.specs.Term.{structure};
ghost use Rattle.vortex_terms.specs.Types.{field_at, field_count};
ghost use Rattle.vortex_terms.specs.Nullability.{with_nullability};
ghost use Rattle.vortex_types.specs.DTypes.{term_of};
ghost use Rattle.vortex_leaves.specs.Selected.{joined_offsets};
ghost use Rattle.vortex_node_rows.specs.RowsOf.{most_rows};
ghost use Rattle.vortex_array_plain.specs.PlainValues.{takes_mask, values_in, AllFit, ArePlain, IsPlain, IsPlainContent, IsPlainHeld, RefusesFields, RefusesPlain};

use crate::plain_leaves::{decimal_values, list_offsets, number_values, text_values};
use crate::plain_values::{all_inside, fallback, filled, parts, truth_values, valid_values};
use std::alloc::Global;
use std::rc::Rc;
use vortex_array_data::{Array, ArrayError, Content, Held, MOST_ROWS, same_type};
use vortex_leaves::Offsets;
use vortex_scalar_value::ScalarValue;
use vortex_types::{DType, StructFields};

/// Whether a mask says which rows of the type are null.
fn takes_mask(dtype: &DType) -> bool
    ensures { result ≡ takes_mask (term_of dtype.now) }
{
    match dtype {
        DType::Null => false,
        DType::Extension(_) => false,
        _ => dtype.is_nullable(),
    }
}

/// The type without nulls.
fn bare_type(alloc: Global, dtype: &DType) -> Result<DType, ArrayError>
    ensures { MatchResult result (λ t. term_of t ≡ with_nullability (term_of dtype.now) false)
        (λ e. e ≡ ArrayError.OutOfMemory) }
{
    match dtype.as_nonnullable(alloc) {
        Ok(dtype) => Ok(dtype),
        Err(_) => Err(ArrayError::OutOfMemory),
    }
}

/// The type of the field at a place.
fn field_type(alloc: Global, fields: &StructFields, i: usize) -> Result<DType, ArrayError>
    requires { i < field_count fields.now }
    ensures { MatchResult result (λ t. Some (term_of t) ≡ field_at fields.now i)
        (λ e. e ≡ ArrayError.OutOfMemory) }
{
    match fields.field_by_index(alloc, i) {
        Ok(Some(dtype)) => Ok(dtype),
        Ok(None) => unreachable!(),
        Err(_) => Err(ArrayError::OutOfMemory),
    }
}

/// The array of these values, of the type, without a constant in it. What stands below a null are
/// default rows. It is [`ArrayError::TooLarge`] only where more than 4,294,967,295 rows or bytes
/// would stand in a part of it.
#[cycle(plain)]
pub fn plain(alloc: Global, dtype: &DType, values: &[ScalarValue]) -> Result<Array, ArrayError>
    requires fit { AllFit (term_of dtype.now) values.now }
    requires few { length values.now ≤ most_rows }
    ensures { MatchResult result (IsPlain (term_of dtype.now) values.now)
        (RefusesPlain (term_of dtype.now) values.now) }
{
    let held = plain_held(alloc, dtype, values)?;
    let own = same_type(alloc, dtype)?;
    Ok(Array::made(own, values.len(), held))
}

/// How the values are held.
#[cycle(plain)]
fn plain_held(alloc: Global, dtype: &DType, values: &[ScalarValue]) -> Result<Held, ArrayError>
    requires fit { AllFit (term_of dtype.now) values.now }
    requires few { length values.now ≤ most_rows }
    ensures { MatchResult result (IsPlainHeld (term_of dtype.now) values.now)
        (RefusesPlain (term_of dtype.now) values.now) }
{
    if !takes_mask(dtype) {
        let content = plain_content(alloc, dtype, values)?;
        return Ok(Held {
            content,
            validity: None,
        });
    }
    let bare = bare_type(alloc, dtype)?;
    let other = fallback(alloc, &bare, values)?;
    let filled = filled(alloc, values, &other)?;
    let content = plain_content(alloc, &bare, &filled)?;
    let validity = Some(valid_values(alloc, values)?);
    Ok(Held { content, validity })
}

/// How values are held, none of which is null under a mask.
#[cycle(plain)]
fn plain_content(
    alloc: Global,
    dtype: &DType,
    values: &[ScalarValue],
) -> Result<Content, ArrayError>
    requires fit { AllFit (term_of dtype.now) values.now }
    requires bare { takes_mask (term_of dtype.now) ≡ false }
    requires few { length values.now ≤ most_rows }
    ensures { MatchResult result (IsPlainContent (term_of dtype.now) values.now)
        (RefusesPlain (term_of dtype.now) values.now) }
{
    match dtype {
        DType::Null => Ok(Content::Nulls),
        DType::Bool(_) => Ok(Content::Truths(truth_values(alloc, values)?)),
        DType::Primitive(ptype, _) => {
            let numbers = number_values(alloc, *ptype, values)?;
            Ok(Content::Numbers(numbers))
        }
        DType::Decimal(_, _) => Ok(Content::Decimals(decimal_values(alloc, values)?)),
        DType::Utf8(_) => Ok(Content::Texts(text_values(alloc, values)?)),
        DType::Binary(_) => Ok(Content::Texts(text_values(alloc, values)?)),
        DType::Struct(fields, _) => {
            let fields = plain_fields(alloc, fields, values)?;
            Ok(Content::Structs(fields))
        }
        DType::List(element, _) => {
            let (offsets, elements) = plain_lists(alloc, element.as_dtype(), values)?;
            Ok(Content::Lists(offsets, Rc::new(alloc, elements)?))
        }
        DType::Extension(ext) => {
            let storage = plain(alloc, ext.storage_dtype(), values)?;
            Ok(Content::Storage(Rc::new(alloc, storage)?))
        }
        DType::FixedSizeList(element, size, _) => {
            let elements = plain_fixed(alloc, element.as_dtype(), *size, values)?;
            Ok(Content::FixedLists(*size, Rc::new(alloc, elements)?))
        }
    }
}

/// The offsets and elements of lists.
#[cycle(plain)]
fn plain_lists(
    alloc: Global,
    element: &DType,
    values: &[ScalarValue],
) -> Result<(Offsets, Array), ArrayError>
    requires { AllByRecursion (λ v. AllFit (term_of element.now) (values_in v)) values.now }
    ensures { MatchResult result
        (λ p. (p.0 ≡ joined_offsets (map (λ v. length (values_in v)) values.now))
        × IsPlain (term_of element.now) (flat_map values_in values.now) p.1)
        (RefusesPlain (term_of element.now) (flat_map values_in values.now)) }
{
    let offsets = list_offsets(alloc, values)?;
    let inside = all_inside(alloc, values)?;
    if inside.len() > MOST_ROWS {
        return Err(ArrayError::TooLarge);
    }
    let elements = plain(alloc, element, &inside)?;
    Ok((offsets, elements))
}

/// The elements of lists of one size.
#[cycle(plain)]
fn plain_fixed(
    alloc: Global,
    element: &DType,
    size: u32,
    values: &[ScalarValue],
) -> Result<Array, ArrayError>
    requires fit { AllByRecursion (λ v. AllFit (term_of element.now) (values_in v)) values.now }
    requires long { length (flat_map values_in values.now) ≡ length values.now * size }
    ensures { MatchResult result
        (IsPlain (term_of element.now) (flat_map values_in values.now))
        (RefusesPlain (term_of element.now) (flat_map values_in values.now)) }
{
    if values.len().saturating_mul(size as usize) > MOST_ROWS {
        return Err(ArrayError::TooLarge);
    }
    let inside = all_inside(alloc, values)?;
    if inside.len() > MOST_ROWS {
        return Err(ArrayError::TooLarge);
    }
    let elements = plain(alloc, element, &inside)?;
    Ok(elements)
}

/// The columns of structs.
#[cycle(plain)]
fn plain_fields(
    alloc: Global,
    fields: &StructFields,
    values: &[ScalarValue],
) -> Result<Vec<Array>, ArrayError>
    requires fit { AllFit (structure fields.now false) values.now }
    requires few { length values.now ≤ most_rows }
    ensures { MatchResult result (λ cs. ArePlain fields.now (map values_in values.now) cs.items)
        (RefusesFields fields.now (map values_in values.now)) }
{
    let count = fields.nfields();
    let mut columns = Vec::with_capacity(alloc, count)?;
    for i in 0..count {
        let dtype = field_type(alloc, fields, i)?;
        let inside = parts(alloc, values, i)?;
        columns.push(plain(alloc, &dtype, &inside)?)?;
    }
    Ok(columns)
}
