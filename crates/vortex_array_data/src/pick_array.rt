//! Rows of an array that are picked, down to the last of its children: a range, those that a mask
//! keeps, or those at places.

ghost use Rattle.std.specs.Prelude.{◌≡◌, length, IfOk, IsOkUnless, MatchResult, true};
ghost use Rattle.std.specs.List.{AllByRecursion};
ghost use Rattle.vortex_types.specs.DTypes.{term_of};
ghost use Rattle.vortex_leaves.specs.Texts.{AreOffsets};
ghost use Rattle.vortex_array_data.specs.Content.{is_maskable, IsMask, IsShaped};
ghost use Rattle.vortex_array_data.specs.inner.Spans.{spans};
ghost use Rattle.vortex_array_data.specs.inner.Picked.{ArePickedColumns, IsPickedColumn, IsPickedContent, IsPickedLists, IsPickedMask};
ghost use Rattle.vortex_array_data.specs.inner.PickedPlaces.{places_in, start_in, AnyMuch, ArePicks, AreParts, ColumnMuch, ContentMuch, ListsMuch, RefusesPick};

use crate::error::ArrayError;
use crate::held::{Array, Content, Held};
use crate::pick_leaves::{picked_decimals, picked_numbers, picked_texts, picked_truths};
use crate::pick_parts::{Parts, are_too_many, spread_mask, spread_places, start, valid_places};
use crate::pick_rows::{Picks, count};
use std::alloc::Global;
use std::rc::Rc;
use vortex_leaves::Offsets;
use vortex_mask::Mask;
use vortex_scalar_value::ScalarValue;
use vortex_types::DType;

/// The mask of the rows that are picked, where there is one.
pub fn picked_mask(
    alloc: Global,
    validity: &Option<Mask>,
    n: usize,
    nullable: bool,
    picks: &Picks,
) -> Result<Option<Mask>, ArrayError>
    requires mask { IsMask n nullable validity.now }
    requires picks { ArePicks n picks.now }
    ensures { MatchResult result (λ v. IsPickedMask (places_in picks.now) validity.now v)
        (λ e. e ≡ ArrayError.OutOfMemory) }
{
    let _ = (n, nullable);
    match validity {
        None => Ok(None),
        Some(mask) => Ok(Some(picked_truths(alloc, mask, picks)?)),
    }
}

/// The same value, shared.
pub fn same_value(alloc: Global, value: &ScalarValue) -> Result<ScalarValue, ArrayError>
    ensures value { IfOk result (λ v. v ≡ value.now) }
    ensures memory { IsOkUnless result ArrayError.OutOfMemory }
{
    match value.try_clone(alloc) {
        Ok(value) => Ok(value),
        Err(_) => Err(ArrayError::OutOfMemory),
    }
}

/// The same type, shared.
pub fn same_type(alloc: Global, dtype: &DType) -> Result<DType, ArrayError>
    ensures { MatchResult result (λ t. term_of t ≡ term_of dtype.now)
        (λ e. e ≡ ArrayError.OutOfMemory) }
{
    match dtype.try_clone(alloc) {
        Ok(dtype) => Ok(dtype),
        Err(_) => Err(ArrayError::OutOfMemory),
    }
}

/// How the rows that are picked are held, under their mask. Buffers of a range stay shared.
#[cycle(pick)]
pub fn picked_content(
    alloc: Global,
    dtype: &DType,
    content: &Content,
    validity: &Option<Mask>,
    n: usize,
    picks: &Picks,
) -> Result<Content, ArrayError>
    requires shape { IsShaped content.now (term_of dtype.now) n }
    requires mask { IsMask n (is_maskable (term_of dtype.now)) validity.now }
    requires picks { ArePicks n picks.now }
    ensures { MatchResult result (λ c.
        IsPickedContent (term_of dtype.now) (places_in picks.now) n validity.now content.now c)
        (RefusesPick picks.now
        (ContentMuch (term_of dtype.now) n validity.now content.now)) }
{
    match content {
        Content::Nulls => Ok(Content::Nulls),
        Content::Truths(mask) => Ok(Content::Truths(picked_truths(alloc, mask, picks)?)),
        Content::Numbers(numbers) => {
            let numbers = picked_numbers(alloc, numbers, picks)?;
            Ok(Content::Numbers(numbers))
        }
        Content::Decimals(decimals) => {
            let decimals = picked_decimals(alloc, decimals, picks)?;
            Ok(Content::Decimals(decimals))
        }
        Content::Texts(texts) => {
            let texts = picked_texts(alloc, texts, validity, picks)?;
            Ok(Content::Texts(texts))
        }
        Content::Lists(offsets, elements) => {
            let (offsets, elements) = picked_lists(alloc, offsets, elements, validity, n, picks)?;
            Ok(Content::Lists(offsets, elements))
        }
        Content::FixedLists(size, elements) => {
            elements.law();
            let size = *size;
            let parts = Parts::Even(size as usize);
            let cut = picked_elements(alloc, elements, &parts, n, picks)?;
            Ok(Content::FixedLists(size, Rc::new(alloc, cut)?))
        }
        Content::Structs(fields) => {
            let fields = picked_fields(alloc, fields, n, picks)?;
            Ok(Content::Structs(fields))
        }
        Content::Storage(array) => {
            let cut = pick(alloc, array, picks)?;
            Ok(Content::Storage(Rc::new(alloc, cut)?))
        }
        Content::Constant(value) => Ok(Content::Constant(same_value(alloc, value)?)),
    }
}

/// The offsets and elements of the lists that are picked. Elements of a range stay as they are, and
/// others are joined without gaps: at places, a null list has none.
#[cycle(pick)]
fn picked_lists(
    alloc: Global,
    offsets: &Offsets,
    elements: &Rc<Array>,
    validity: &Option<Mask>,
    n: usize,
    picks: &Picks,
) -> Result<(Offsets, Rc<Array>), ArrayError>
    requires shape { AreOffsets n (length elements.now.value.rows) offsets.now }
    requires mask { IsMask n true validity.now }
    requires picks { ArePicks n picks.now }
    ensures { MatchResult result (λ p. IsPickedLists (places_in picks.now) validity.now
        offsets.now elements.now.value p.0 p.1.value)
        (RefusesPick picks.now (ListsMuch validity.now offsets.now elements.now.value)) }
{
    match picks {
        Picks::Range(from, to) => {
            let offsets = offsets.slice(*from, *to)?;
            Ok((offsets, elements.clone()?))
        }
        Picks::Mask(mask) => {
            let joined = offsets.filter(alloc, mask)?;
            let parts = Parts::Between(offsets);
            let cut = picked_elements(alloc, elements, &parts, n, picks)?;
            Ok((joined, Rc::new(alloc, cut)?))
        }
        Picks::Places(places) => {
            elements.law();
            let Some(joined) = offsets.take(alloc, validity.as_ref(), places)? else {
                return Err(ArrayError::TooLarge);
            };
            let shown = valid_places(alloc, validity, n, places)?;
            let parts = Parts::Between(offsets);
            let cut = picked_elements(alloc, elements, &parts, n, &Picks::Places(&shown))?;
            Ok((joined, Rc::new(alloc, cut)?))
        }
    }
}

/// The elements of the lists that are picked, of n lists.
#[cycle(pick)]
pub fn picked_elements(
    alloc: Global,
    elements: &Array,
    parts: &Parts,
    n: usize,
    picks: &Picks,
) -> Result<Array, ArrayError>
    requires parts { AreParts parts.now n (length elements.now.rows) }
    requires picks { ArePicks n picks.now }
    ensures { MatchResult result
        (IsPickedColumn (spans (start_in parts.now) (places_in picks.now)) elements.now)
        (RefusesPick picks.now
        (λ places. ColumnMuch elements.now (spans (start_in parts.now) places))) }
{
    elements.law();
    let end = elements.len();
    match picks {
        Picks::Range(from, to) => {
            let range = Picks::Range(start(parts, n, end, *from), start(parts, n, end, *to));
            let cut = pick(alloc, elements, &range)?;
            Ok(cut)
        }
        Picks::Mask(mask) => {
            let spread = spread_mask(alloc, parts, mask, end)?;
            let cut = pick(alloc, elements, &Picks::Mask(&spread))?;
            Ok(cut)
        }
        Picks::Places(places) => {
            if are_too_many(parts, places) {
                return Err(ArrayError::TooLarge);
            }
            let spread = spread_places(alloc, parts, n, end, places)?;
            let cut = pick(alloc, elements, &Picks::Places(&spread))?;
            Ok(cut)
        }
    }
}

/// The columns of the rows that are picked.
#[cycle(pick)]
fn picked_fields(
    alloc: Global,
    fields: &[Array],
    n: usize,
    picks: &Picks,
) -> Result<Vec<Array>, ArrayError>
    requires long { AllByRecursion (λ a. length a.rows ≡ n) fields.now }
    requires picks { ArePicks n picks.now }
    ensures { MatchResult result
        (λ v. ArePickedColumns (places_in picks.now) fields.now v.items)
        (RefusesPick picks.now (AnyMuch fields.now)) }
{
    let mut out = Vec::with_capacity(alloc, fields.len())?;
    let mut rest = fields;
    while let [first, others @ ..] = rest {
        first.law();
        out.push(pick(alloc, first, picks)?)?;
        rest = others;
    }
    Ok(out)
}

/// The array of the rows that are picked.
#[cycle(pick)]
pub fn pick(alloc: Global, array: &Array, picks: &Picks) -> Result<Array, ArrayError>
    requires { ArePicks (length array.now.rows) picks.now }
    ensures { MatchResult result
        (λ a. IsPickedColumn (places_in picks.now) array.now a)
        (RefusesPick picks.now (ColumnMuch array.now)) }
{
    let nullable = array.dtype.is_nullable();
    let rows = count(array.len, picks);
    if rows > u32::MAX as usize {
        return Err(ArrayError::TooLarge);
    }
    let validity = picked_mask(alloc, &array.held.validity, array.len, nullable, picks)?;
    let content = picked_content(
        alloc,
        &array.dtype,
        &array.held.content,
        &array.held.validity,
        array.len,
        picks,
    )?;
    let dtype = same_type(alloc, &array.dtype)?;
    Ok(Array::made(dtype, rows, Held { content, validity }))
}
