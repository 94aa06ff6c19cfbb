//! Arrays whose rows are all one row, as far as that is known without a look at each.

ghost use Rattle.std.specs.Prelude.{◌≡◌, IsTrue};
ghost use Rattle.vortex_array_compare.specs.inner.AlikeRows.{are_even, is_even, AllAlike, AreAlike};

use vortex_array_data::{Array, Content};
use vortex_mask::Mask;

/// Whether all truth values are the same.
fn is_even(mask: &Mask) -> bool
    ensures { result ≡ are_even mask.now }
{
    mask.all_true() || mask.all_false()
}

/// Whether the mask hides all rows or none.
fn is_even_validity(validity: &Option<Mask>) -> bool
    ensures { result ≡ is_even validity.now }
{
    match validity {
        Some(mask) => is_even(mask),
        None => true,
    }
}

/// Whether all rows are known to be one row. Lists are not looked into, and numbers and texts not
/// looked at.
#[cycle(uniform)]
pub(crate) fn is_uniform(array: &Array) -> bool
    ensures { IsTrue result → AreAlike array.now.rows }
{
    if !is_even_validity(&array.held.validity) {
        return false;
    }
    match &array.held.content {
        Content::Nulls => true,
        Content::Truths(mask) => is_even(mask),
        Content::Numbers(_) => false,
        Content::Decimals(_) => false,
        Content::Texts(_) => false,
        Content::Lists(_, _) => false,
        Content::FixedLists(_, elements) => is_uniform(elements),
        Content::Structs(fields) => are_uniform(fields),
        Content::Storage(storage) => is_uniform(storage),
        Content::Constant(_) => true,
    }
}

/// Whether each column is known to have one row alone.
#[cycle(uniform)]
fn are_uniform(fields: &[Array]) -> bool
    ensures { IsTrue result → AllAlike fields.now }
{
    let mut rest = fields;
    while let [field, others @ ..] = rest {
        if !is_uniform(field) {
            return false;
        }
        rest = others;
    }
    true
}
