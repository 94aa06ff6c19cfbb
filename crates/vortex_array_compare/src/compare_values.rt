//! How single rows that are no lists compare with a row whose parts are values still.

ghost use Rattle.std.specs.Prelude.{◌≡◌};
ghost use Rattle.vortex_terms.specs.Row.{null_row, truth_row, whole_row, bytes_row};
ghost use Rattle.vortex_array_compare.specs.inner.ComparedRows.{leaf_cmp};

use std::cmp::Ordering;
use vortex_value_rows::RowRef;

/// How null compares with the row.
pub(crate) fn null_order(other: &RowRef<'_>) -> Ordering
    ensures { result ≡ leaf_cmp null_row other.now }
{
    match other {
        RowRef::Null => Ordering::Equal,
        RowRef::Truth(_) => Ordering::Less,
        RowRef::Whole(_) => Ordering::Less,
        RowRef::Bytes(_) => Ordering::Less,
        RowRef::List(_) => Ordering::Less,
    }
}

/// How a truth value compares with the row.
pub(crate) fn truth_order(value: bool, other: &RowRef<'_>) -> Ordering
    ensures { result ≡ leaf_cmp (truth_row value) other.now }
{
    match other {
        RowRef::Null => Ordering::Greater,
        RowRef::Truth(other) => value.cmp(other),
        RowRef::Whole(_) => Ordering::Less,
        RowRef::Bytes(_) => Ordering::Less,
        RowRef::List(_) => Ordering::Less,
    }
}

/// How a whole number, or the unscaled number of a decimal, compares with the row.
pub(crate) fn whole_order(value: i128, other: &RowRef<'_>) -> Ordering
    ensures { result ≡ leaf_cmp (whole_row value) other.now }
{
    match other {
        RowRef::Null => Ordering::Greater,
        RowRef::Truth(_) => Ordering::Greater,
        RowRef::Whole(other) => value.cmp(other),
        RowRef::Bytes(_) => Ordering::Less,
        RowRef::List(_) => Ordering::Less,
    }
}

/// How bytes, or those of a text, compare with the row.
pub(crate) fn bytes_order(value: &[u8], other: &RowRef<'_>) -> Ordering
    ensures { result ≡ leaf_cmp (bytes_row value.now) other.now }
{
    match other {
        RowRef::Null => Ordering::Greater,
        RowRef::Truth(_) => Ordering::Greater,
        RowRef::Whole(_) => Ordering::Greater,
        RowRef::Bytes(other) => value.cmp(*other),
        RowRef::List(_) => Ordering::Less,
    }
}
