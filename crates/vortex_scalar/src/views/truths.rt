//! How truth values compare that may be null.

ghost use Rattle.std.specs.Prelude.{◌≡◌, fold};
ghost use Rattle.vortex_terms.specs.Row.{truth_row};
ghost use Rattle.vortex_terms.specs.Order.{row_cmp};
ghost use Rattle.vortex_value_rows.specs.HashInput.{row_writes};
ghost use Rattle.vortex_scalar.specs.ViewRows.{or_null};

use std::cmp::Ordering;
use std::hash::{Hash, Hasher};

/// How the truth values compare, null first.
pub(super) fn compare_truths(a: Option<bool>, b: Option<bool>) -> Ordering
    ensures { result ≡ row_cmp (or_null truth_row a) (or_null truth_row b) }
{
    match (a, b) {
        (None, None) => Ordering::Equal,
        (None, Some(_)) => Ordering::Less,
        (Some(_), None) => Ordering::Greater,
        (Some(a), Some(b)) => a.cmp(&b),
    }
}

/// Feeds a truth value, or null.
pub(super) fn hash_truth<H: Hasher>(value: Option<bool>, state: &mut H)
    ensures { state.new ≡ fold H.write state.old (row_writes (or_null truth_row value)) }
{
    match value {
        None => 0u8.hash(state),
        Some(value) => {
            1u8.hash(state);
            value.hash(state);
        }
    }
}
