//! What arrays without constants share with others: leaves, and the elements that lists show.

ghost use Rattle.std.specs.Prelude.{◌≡◌, ◌≤◌, ◌-◌, length, not, MatchResult, true};
ghost use Rattle.vortex_types.specs.DTypes.{term_of};
ghost use Rattle.vortex_node_rows.specs.RowsOf.{most_rows};
ghost use Rattle.vortex_leaves.specs.Texts.{AreOffsets};
ghost use Rattle.vortex_array_data.specs.Constants.{is_canonical};
ghost use Rattle.vortex_array_data.specs.Content.{IsMask, IsShaped};
ghost use Rattle.vortex_array_data.specs.inner.Picked.{are_plain_columns, from_on};
ghost use Rattle.vortex_array_plain.specs.PlainValues.{RefusesRows};
ghost use Rattle.vortex_array_canonical.specs.inner.SameRows.{shown_inside, AreShownLists, IsSameContent};

use std::alloc::Global;
use vortex_array_data::{
    Array, ArrayError, Content, Parts, Picks, followed, picked_content, picked_elements,
    valid_places,
};
use vortex_leaves::Offsets;
use vortex_mask::Mask;
use vortex_types::DType;

/// Whether a constant stands in the array.
#[cycle(constant)]
pub(crate) fn has_constant(array: &Array) -> bool
    ensures { result ≡ not (is_canonical array.now.node) }
{
    match &array.held.content {
        Content::Nulls => false,
        Content::Truths(_) => false,
        Content::Numbers(_) => false,
        Content::Decimals(_) => false,
        Content::Texts(_) => false,
        Content::Lists(_, elements) => has_constant(elements),
        Content::FixedLists(_, elements) => has_constant(elements),
        Content::Structs(fields) => any_constant(fields),
        Content::Storage(storage) => has_constant(storage),
        Content::Constant(_) => true,
    }
}

/// Whether a constant stands in one of the columns.
#[cycle(constant)]
fn any_constant(fields: &[Array]) -> bool
    ensures { result ≡ not (are_plain_columns fields.now) }
{
    let mut rest = fields;
    while let [first, others @ ..] = rest {
        if has_constant(first) {
            return true;
        }
        rest = others;
    }
    false
}

/// The same content, shared.
pub(crate) fn same_leaf(
    alloc: Global,
    dtype: &DType,
    content: &Content,
    n: usize,
) -> Result<Content, ArrayError>
    requires { IsShaped content.now (term_of dtype.now) n }
    ensures { MatchResult result (IsSameContent (term_of dtype.now) n content.now)
        (λ e. e ≡ ArrayError.OutOfMemory) }
{
    match picked_content(alloc, dtype, content, &None, n, &Picks::Range(0, n)) {
        Ok(content) => Ok(content),
        Err(e) => Err(e),
    }
}

/// The places of so many rows.
fn all_places(alloc: Global, n: usize) -> Result<Vec<u32>, ArrayError>
    requires { n ≤ most_rows }
    ensures { MatchResult result (λ v. v.items ≡ from_on (n - 0) 0)
        (λ e. e ≡ ArrayError.OutOfMemory) }
{
    followed(Vec::new(alloc), 0, n)
}

/// The same lists, with no elements but those that are shown: joined without gaps, and none in
/// null.
pub(crate) fn shown_lists(
    alloc: Global,
    offsets: &Offsets,
    elements: &Array,
    validity: &Option<Mask>,
    n: usize,
) -> Result<(Offsets, Array), ArrayError>
    requires shape { AreOffsets n (length elements.now.rows) offsets.now }
    requires mask { IsMask n true validity.now }
    requires few { n ≤ most_rows }
    ensures { MatchResult result
        (λ p. AreShownLists n validity.now offsets.now elements.now p.0 p.1)
        (RefusesRows elements.now.dtype
        (shown_inside validity.now offsets.now elements.now.rows)) }
{
    elements.law();
    let places = all_places(alloc, n)?;
    let Some(joined) = offsets.take(alloc, validity.as_ref(), &places)? else {
        return Err(ArrayError::TooLarge);
    };
    let shown = valid_places(alloc, validity, n, &places)?;
    let parts = Parts::Between(offsets);
    let cut = picked_elements(alloc, elements, &parts, n, &Picks::Places(&shown))?;
    Ok((joined, cut))
}
