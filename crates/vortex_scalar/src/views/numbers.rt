//! How numbers compare that may be null.

ghost use Rattle.std.specs.Prelude.{◌≡◌, fold};
ghost use Rattle.vortex_terms.specs.Row.{whole_row};
ghost use Rattle.vortex_terms.specs.Order.{row_cmp, row_eq};
ghost use Rattle.vortex_value_rows.specs.HashInput.{row_writes};
ghost use Rattle.vortex_scalar.specs.ViewRows.{or_null};

use std::cmp::Ordering;
use std::hash::{Hash, Hasher};

/// How the numbers compare, null first.
pub(super) fn compare_numbers(a: Option<i128>, b: Option<i128>) -> Ordering
    ensures { result ≡ row_cmp (or_null whole_row a) (or_null whole_row b) }
{
    match (a, b) {
        (None, None) => Ordering::Equal,
        (None, Some(_)) => Ordering::Less,
        (Some(_), None) => Ordering::Greater,
        (Some(a), Some(b)) => a.cmp(&b),
    }
}

/// Whether the numbers are equal, or both are null.
pub(super) fn equal_numbers(a: Option<i128>, b: Option<i128>) -> bool
    ensures { result ≡ row_eq (or_null whole_row a) (or_null whole_row b) }
{
    compare_numbers(a, b).is_eq()
}

/// Feeds a number, or null.
pub(super) fn hash_number<H: Hasher>(number: Option<i128>, state: &mut H)
    ensures { state.new ≡ fold H.write state.old (row_writes (or_null whole_row number)) }
{
    match number {
        None => 0u8.hash(state),
        Some(number) => {
            2u8.hash(state);
            number.hash(state);
        }
    }
}
