//! What is asked of rows.

ghost use Rattle.std.specs.Prelude.{◌≡◌, ◌↔◌, IsTrue, ◌<◌};
ghost use Rattle.std.specs.Prelude.{FitsSigned};
ghost use Rattle.std.specs.Int.{w128};
ghost use Rattle.std.specs.Str.{IsUtf8};
ghost use Rattle.vortex_terms.specs.Row.{AllRows, row_count, form_of as term_form};
ghost use Rattle.vortex_terms.specs.Types.{IsBytes};
ghost use Rattle.vortex_terms.specs.Fits.{Fits, FitsFields, InRange};
ghost use Rattle.vortex_terms.specs.Order.{row_cmp, rows_cmp, form_number};
ghost use Rattle.vortex_terms_check.specs.Plain.{kind_of, term_of, fields_of, row_of, rows_of};

use crate::plain::{PlainFields, PlainRow, PlainRows, PlainType, WholeKind};
use crate::types::nullable;
use std::cmp::Ordering;

/// The place of the row's form among the five.
fn form_of(r: &PlainRow) -> u8
    ensures { result ≡ form_number (term_form (row_of r.now)) }
{
    match r {
        PlainRow::Null => 0,
        PlainRow::Truth(_) => 1,
        PlainRow::Whole(_) => 2,
        PlainRow::Bytes(_) => 3,
        PlainRow::Items(_) => 4,
    }
}

/// How the rows compare.
#[cycle(compare)]
pub fn compare(r: &PlainRow, s: &PlainRow) -> Ordering
    ensures { result ≡ row_cmp (row_of r.now) (row_of s.now) }
{
    match (r, s) {
        (PlainRow::Truth(a), PlainRow::Truth(b)) => a.cmp(b),
        (PlainRow::Whole(a), PlainRow::Whole(b)) => a.cmp(b),
        (PlainRow::Bytes(a), PlainRow::Bytes(b)) => a.as_slice().cmp(b.as_slice()),
        (PlainRow::Items(a), PlainRow::Items(b)) => compare_items(a, b),
        _ => form_of(r).cmp(&form_of(s)),
    }
}

#[cycle(compare)]
fn compare_items(a: &PlainRows, b: &PlainRows) -> Ordering
    ensures { result ≡ rows_cmp (rows_of a.now) (rows_of b.now) }
{
    match (a, b) {
        (PlainRows::End, PlainRows::End) => Ordering::Equal,
        (PlainRows::End, PlainRows::Row(..)) => Ordering::Less,
        (PlainRows::Row(..), PlainRows::End) => Ordering::Greater,
        (PlainRows::Row(r, rs), PlainRows::Row(s, ss)) => match compare(r, s) {
            Ordering::Equal => compare_items(rs, ss),
            other => other,
        },
    }
}

fn in_range(k: WholeKind, z: i128) -> bool
    ensures { IsTrue result ↔ InRange (kind_of k) z }
{
    match k {
        WholeKind::U8 => u8::try_from(z).is_ok(),
        WholeKind::U16 => u16::try_from(z).is_ok(),
        WholeKind::U32 => u32::try_from(z).is_ok(),
        WholeKind::U64 => u64::try_from(z).is_ok(),
        WholeKind::I8 => i8::try_from(z).is_ok(),
        WholeKind::I16 => i16::try_from(z).is_ok(),
        WholeKind::I32 => i32::try_from(z).is_ok(),
        WholeKind::I64 => i64::try_from(z).is_ok(),
    }
}

fn has_count(rs: &PlainRows, k: u32) -> bool
    ensures { IsTrue result ↔ (row_count (rows_of rs.now) ≡ k) }
{
    match rs {
        PlainRows::End => k == 0,
        PlainRows::Row(_, rest) => k > 0 && has_count(rest, k - 1),
    }
}

pub(crate) fn is_text(bytes: &[u8]) -> bool
    ensures { IsTrue result ↔ IsUtf8 bytes.now }
{
    str::from_utf8(bytes).is_ok()
}

pub(crate) fn are_bytes(bytes: &Vec<u8>) -> bool
    ensures always { IsTrue result }
    ensures bytes { IsBytes bytes.now.items }
{
    let _ = bytes.as_slice();
    true
}

fn is_wide(z: i128) -> bool
    ensures always { IsTrue result }
    ensures wide { FitsSigned w128 z }
{
    let _ = z;
    true
}

/// Whether the row is one of the type.
#[cycle(fits)]
pub fn fits(t: &PlainType, r: &PlainRow) -> bool
    ensures { IsTrue result ↔ Fits (term_of t.now) (row_of r.now) }
{
    match (t, r) {
        (PlainType::Extension(_, t, _), r) => fits(t, r),
        (t, PlainRow::Null) => nullable(t),
        (PlainType::Bool(_), PlainRow::Truth(_)) => true,
        (PlainType::Primitive(k, _), PlainRow::Whole(z)) => in_range(*k, *z),
        (PlainType::Decimal(..), PlainRow::Whole(z)) => is_wide(*z),
        (PlainType::Utf8(_), PlainRow::Bytes(bytes)) => is_text(bytes),
        (PlainType::Binary(_), PlainRow::Bytes(bytes)) => are_bytes(bytes),
        (PlainType::Struct(fields, _), PlainRow::Items(rs)) => fits_fields(fields, rs),
        (PlainType::ListOf(t, _), PlainRow::Items(rs)) => fits_all(t, rs),
        (PlainType::FixedSizeList(t, k, _), PlainRow::Items(rs)) => has_count(rs, *k)
            && fits_all(t, rs),
        _ => false,
    }
}

#[cycle(fits)]
fn fits_fields(fields: &PlainFields, rs: &PlainRows) -> bool
    ensures { IsTrue result ↔ FitsFields (fields_of fields.now) (rows_of rs.now) }
{
    match (fields, rs) {
        (PlainFields::End, PlainRows::End) => true,
        (PlainFields::Field(_, t, fields), PlainRows::Row(r, rs)) => fits(t, r)
            && fits_fields(fields, rs),
        _ => false,
    }
}

#[cycle(fits)]
fn fits_all(t: &PlainType, rs: &PlainRows) -> bool
    ensures { IsTrue result ↔ AllRows (Fits (term_of t.now)) (rows_of rs.now) }
{
    match rs {
        PlainRows::End => true,
        PlainRows::Row(r, rest) => fits(t, r) && fits_all(t, rest),
    }
}
