//! Arrays without constants.

ghost use Rattle.std.specs.Prelude.{◌≡◌, ◌≤◌, is_some, length, IfSome, MatchResult, false, true};
ghost use Rattle.vortex_types.specs.DTypes.{term_of};
ghost use Rattle.vortex_node_rows.specs.RowsOf.{most_rows};
ghost use Rattle.vortex_leaves.specs.Texts.{AreOffsets};
ghost use Rattle.vortex_array_canonical.specs.Canonical.{IsCanonicalOf, RefusesCanonical};
ghost use Rattle.vortex_array_data.specs.Constants.{is_constant};
ghost use Rattle.vortex_array_data.specs.Column.{Column};
ghost use Rattle.vortex_array_data.specs.ArrayNode.{array_encoding};
ghost use Rattle.vortex_array_data.specs.declared.held.Content.TheVariants.{Constant};
ghost use Rattle.vortex_array_data.specs.Content.{is_maskable, IsMask, IsShaped};
ghost use Rattle.vortex_array_canonical.specs.inner.SameRows.{is_constant_content, AreCanonicalLists, AreCanonicalOf, IsCanonicalContent, RefusesColumns, RefusesContent, RefusesLists};

use crate::canonical_parts::{has_constant, same_leaf, shown_lists};
use crate::canonical_values::repeated;
use std::alloc::Global;
use std::rc::Rc;
use vortex_array_data::{Array, ArrayError, Content, Held, Picks, picked_mask, same_type};
use vortex_leaves::Offsets;
use vortex_mask::Mask;
use vortex_scalar_value::ScalarValue;
use vortex_types::DType;

/// What is seen as a column and whose rows can be laid out.
pub trait ToCanonical {
    ghost column: { Self → Column };

    /// The same rows, in an array without constants: each is laid out, and buffers beside it stay
    /// shared. Lists with constants in them keep only the elements that their rows show. It is
    /// [`ArrayError::TooLarge`] only where there is a constant, and the rows, laid out, have more
    /// than 4,294,967,295 rows or bytes in a part of the array.
    fn to_canonical(&self, alloc: Global) -> Result<Array, ArrayError>
        ensures { MatchResult result (IsCanonicalOf (column self.now))
            (RefusesCanonical (column self.now)) };
}

impl ToCanonical for Array {
    ghost column = { λ a. a };

    fn to_canonical(&self, alloc: Global) -> Result<Array, ArrayError> {
        canonical(alloc, self)
    }
}

/// The value of a constant.
fn constant_value(content: &Content) -> Option<&ScalarValue>
    ensures there { is_some result ≡ is_constant_content content.now }
    ensures value { IfSome result (λ v. content.now ≡ Constant v.now) }
{
    match content {
        Content::Constant(value) => Some(value),
        _ => None,
    }
}

/// The same rows without constants.
#[cycle(canonical)]
fn canonical(alloc: Global, array: &Array) -> Result<Array, ArrayError>
    ensures { MatchResult result (IsCanonicalOf array.now) (RefusesCanonical array.now) }
{
    let Some(value) = constant_value(&array.held.content) else {
        return rebuilt(alloc, array);
    };
    array.law();
    repeated(alloc, &array.dtype, value, &array.held.validity, array.len)
}

/// The same rows without constants, of what is no constant.
#[cycle(canonical)]
fn rebuilt(alloc: Global, array: &Array) -> Result<Array, ArrayError>
    requires { is_constant (array_encoding array.now.node) ≡ false }
    ensures { MatchResult result (IsCanonicalOf array.now) (RefusesCanonical array.now) }
{
    array.law();
    let n = array.len;
    let content = canonical_content(
        alloc,
        &array.dtype,
        &array.held.content,
        &array.held.validity,
        n,
    )?;
    let nullable = array.dtype.is_nullable();
    let all = Picks::Range(0, n);
    let validity = picked_mask(alloc, &array.held.validity, n, nullable, &all)?;
    let dtype = same_type(alloc, &array.dtype)?;
    Ok(Array::made(dtype, n, Held { content, validity }))
}

/// The same, of how rows are held under a mask.
#[cycle(canonical)]
fn canonical_content(
    alloc: Global,
    dtype: &DType,
    content: &Content,
    validity: &Option<Mask>,
    n: usize,
) -> Result<Content, ArrayError>
    requires shape { IsShaped content.now (term_of dtype.now) n }
    requires mask { IsMask n (is_maskable (term_of dtype.now)) validity.now }
    requires few { n ≤ most_rows }
    ensures { MatchResult result
        (IsCanonicalContent (term_of dtype.now) n validity.now content.now)
        (RefusesContent (term_of dtype.now) n validity.now content.now) }
{
    match content {
        Content::Nulls => same_leaf(alloc, dtype, content, n),
        Content::Truths(_) => same_leaf(alloc, dtype, content, n),
        Content::Numbers(_) => same_leaf(alloc, dtype, content, n),
        Content::Decimals(_) => same_leaf(alloc, dtype, content, n),
        Content::Texts(_) => same_leaf(alloc, dtype, content, n),
        Content::Lists(offsets, elements) => {
            let (offsets, elements) = canonical_lists(alloc, offsets, elements, validity, n)?;
            Ok(Content::Lists(offsets, elements))
        }
        Content::FixedLists(size, elements) => {
            elements.law();
            let elements = canonical(alloc, elements)?;
            Ok(Content::FixedLists(*size, Rc::new(alloc, elements)?))
        }
        Content::Structs(fields) => {
            let fields = canonical_fields(alloc, fields)?;
            Ok(Content::Structs(fields))
        }
        Content::Storage(storage) => {
            let storage = canonical(alloc, storage)?;
            Ok(Content::Storage(Rc::new(alloc, storage)?))
        }
        Content::Constant(_) => same_leaf(alloc, dtype, content, n),
    }
}

/// The same, of lists: elements without constants stay shared, and of others those are laid out
/// that the lists show.
#[cycle(canonical)]
fn canonical_lists(
    alloc: Global,
    offsets: &Offsets,
    elements: &Rc<Array>,
    validity: &Option<Mask>,
    n: usize,
) -> Result<(Offsets, Rc<Array>), ArrayError>
    requires shape { AreOffsets n (length elements.now.value.rows) offsets.now }
    requires mask { IsMask n true validity.now }
    requires few { n ≤ most_rows }
    ensures { MatchResult result (λ p. AreCanonicalLists n validity.now offsets.now
        elements.now.value p.0 p.1.value)
        (RefusesLists validity.now offsets.now elements.now.value) }
{
    if !has_constant(elements) {
        let offsets = offsets.slice(0, n)?;
        return Ok((offsets, elements.clone()?));
    }
    let (offsets, shown) = shown_lists(alloc, offsets, elements, validity, n)?;
    let elements = canonical(alloc, &shown)?;
    Ok((offsets, Rc::new(alloc, elements)?))
}

/// The same, of columns.
#[cycle(canonical)]
fn canonical_fields(alloc: Global, fields: &[Array]) -> Result<Vec<Array>, ArrayError>
    ensures { MatchResult result (λ v. AreCanonicalOf fields.now v.items)
        (RefusesColumns fields.now) }
{
    let mut out = Vec::with_capacity(alloc, fields.len())?;
    let mut rest = fields;
    while let [first, others @ ..] = rest {
        first.law();
        out.push(canonical(alloc, first)?)?;
        rest = others;
    }
    Ok(out)
}
