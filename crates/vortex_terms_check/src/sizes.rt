//! The columns inside a column, and the size rule.

ghost use Rattle.std.specs.Prelude.{◌≡◌, ◌++◌, map, min, IfOk};
ghost use Rattle.std.specs.List.{list_any, sum_by, flat_map};
ghost use Rattle.std.specs.Option.{option_map};
ghost use Rattle.vortex_terms.specs.Row.{row_at, row_list, copies};
ghost use Rattle.vortex_terms.specs.Order.{row_eq};
ghost use Rattle.vortex_terms.specs.Distinct.{distinct};
ghost use Rattle.vortex_terms.specs.Parts.{byte_count as term_byte_count, size_of as term_size, is_large as term_is_large, field_row as term_field_row, column as term_column, inner_rows, fixed_inner_rows, passes as term_passes, fields_pass as columns_pass};
ghost use Rattle.vortex_terms_check.specs.Plain.{term_of, fields_of, row_of, rows_of};

use crate::defaults::{copy, default_row};
use crate::plain::{PlainFields, PlainRow, PlainRows, PlainType};
use crate::rows::compare;
use std::alloc::{AllocError, Global};

pub(crate) fn stands(r: &PlainRow, rows: &[PlainRow]) -> bool
    ensures { result ≡ list_any (row_eq (row_of r.now)) (map row_of rows.now) }
{
    match rows {
        [] => false,
        [first, rest @ ..] => compare(r, first).is_eq() || stands(r, rest),
    }
}

fn byte_count(r: &PlainRow) -> usize
    ensures { result ≡ term_byte_count (row_of r.now) }
{
    match r {
        PlainRow::Bytes(bytes) => bytes.len(),
        _ => 0,
    }
}

/// How many bytes the distinct rows have, as far as the answer's type reaches.
fn distinct_bytes(rows: &[PlainRow]) -> usize
    ensures { result ≡ min (sum_by term_byte_count (distinct (map row_of rows.now))) usize.MAX }
{
    match rows {
        [] => 0,
        [first, rest @ ..] => {
            if stands(first, rest) {
                distinct_bytes(rest)
            } else {
                byte_count(first).saturating_add(distinct_bytes(rest))
            }
        }
    }
}

/// The size of the column itself, as far as the answer's type reaches.
pub fn size_of(t: &PlainType, rows: &[PlainRow]) -> usize
    ensures { result ≡ min (term_size (term_of t.now) (map row_of rows.now)) usize.MAX }
{
    let room = rows.len().saturating_mul(16);
    match t {
        PlainType::Utf8(_) | PlainType::Binary(_) => room.saturating_add(distinct_bytes(rows)),
        _ => room,
    }
}

/// Whether the column itself is too large.
fn is_large(t: &PlainType, rows: &[PlainRow]) -> bool
    ensures { result ≡ term_is_large (term_of t.now) (map row_of rows.now) }
{
    size_of(t, rows) > 4_294_967_295
}

fn nth(rs: &PlainRows, i: u64) -> Option<&PlainRow>
    ensures { option_map (λ r. row_of r.now) result ≡ row_at (rows_of rs.entry.now) i }
{
    match rs {
        PlainRows::End => None,
        PlainRows::Row(r, rest) => { if i == 0 { Some(r) } else { nth(rest, i - 1) } }
    }
}

/// Field i of the row, of type t.
fn field_row(alloc: Global, t: &PlainType, i: u64, r: &PlainRow) -> Result<PlainRow, AllocError>
    ensures { IfOk result (λ s. row_of s ≡ term_field_row (term_of t.now) i (row_of r.now)) }
{
    match r {
        PlainRow::Items(rs) => match nth(rs, i) {
            Some(s) => copy(alloc, s),
            None => default_row(alloc, t),
        },
        _ => default_row(alloc, t),
    }
}

/// The rows, and then field i, of type t, of each other row.
fn column_onto(
    alloc: Global,
    t: &PlainType,
    i: u64,
    rows: &[PlainRow],
    mut out: Vec<PlainRow>,
) -> Result<Vec<PlainRow>, AllocError>
    ensures { IfOk result (λ v. map row_of v.items ≡ map row_of out.items
        ++ term_column (term_of t.now) i (map row_of rows.now)) }
{
    match rows {
        [] => Ok(out),
        [first, rest @ ..] => {
            out.push(field_row(alloc, t, i, first)?)?;
            column_onto(alloc, t, i, rest, out)
        }
    }
}

/// The rows, and then those inside a list.
fn items_onto(
    alloc: Global,
    rs: &PlainRows,
    mut out: Vec<PlainRow>,
) -> Result<Vec<PlainRow>, AllocError>
    ensures { IfOk result (λ v. map row_of v.items ≡ map row_of out.items
        ++ row_list (rows_of rs.now)) }
{
    match rs {
        PlainRows::End => Ok(out),
        PlainRows::Row(r, rest) => {
            out.push(copy(alloc, r)?)?;
            items_onto(alloc, rest, out)
        }
    }
}

/// The rows, and then those inside each list.
fn inner_onto(
    alloc: Global,
    rows: &[PlainRow],
    out: Vec<PlainRow>,
) -> Result<Vec<PlainRow>, AllocError>
    ensures { IfOk result (λ v. map row_of v.items ≡ map row_of out.items
        ++ flat_map inner_rows (map row_of rows.now)) }
{
    match rows {
        [] => Ok(out),
        [PlainRow::Items(rs), rest @ ..] => inner_onto(alloc, rest, items_onto(alloc, rs, out)?),
        [_, rest @ ..] => inner_onto(alloc, rest, out),
    }
}

/// The rows, and then as many copies of a row.
#[tactic(auto, unfolding(vortex_terms::specs::Row::copies))]
fn copies_onto(
    alloc: Global,
    r: &PlainRow,
    k: u32,
    mut out: Vec<PlainRow>,
) -> Result<Vec<PlainRow>, AllocError>
    ensures { IfOk result (λ v. map row_of v.items ≡ map row_of out.items
        ++ copies k (row_of r.now)) }
{
    if k == 0 {
        return Ok(out);
    }
    out.push(copy(alloc, r)?)?;
    copies_onto(alloc, r, k - 1, out)
}

/// The rows, and then those inside one row of a list of k elements of type t.
fn fixed_row_onto(
    alloc: Global,
    t: &PlainType,
    k: u32,
    r: &PlainRow,
    out: Vec<PlainRow>,
) -> Result<Vec<PlainRow>, AllocError>
    ensures { IfOk result (λ v. map row_of v.items ≡ map row_of out.items
        ++ fixed_inner_rows (term_of t.now) k (row_of r.now)) }
{
    match r {
        PlainRow::Items(rs) => items_onto(alloc, rs, out),
        _ => {
            let one = default_row(alloc, t)?;
            copies_onto(alloc, &one, k, out)
        }
    }
}

/// The rows, and then those inside each list of k elements of type t.
fn fixed_onto(
    alloc: Global,
    t: &PlainType,
    k: u32,
    rows: &[PlainRow],
    out: Vec<PlainRow>,
) -> Result<Vec<PlainRow>, AllocError>
    ensures { IfOk result (λ v. map row_of v.items ≡ map row_of out.items
        ++ flat_map (fixed_inner_rows (term_of t.now) k) (map row_of rows.now)) }
{
    match rows {
        [] => Ok(out),
        [first, rest @ ..] => {
            let out = fixed_row_onto(alloc, t, k, first, out)?;
            fixed_onto(alloc, t, k, rest, out)
        }
    }
}

/// Whether the column, or one inside it, is too large.
#[cycle(passes)]
pub fn passes(alloc: Global, t: &PlainType, rows: &[PlainRow]) -> Result<bool, AllocError>
    ensures { IfOk result (λ b. b ≡ term_passes (term_of t.now) (map row_of rows.now)) }
{
    if is_large(t, rows) {
        return Ok(true);
    }
    match t {
        PlainType::Struct(fields, _) => fields_pass(alloc, fields, 0, rows),
        PlainType::ListOf(t, _) => passes(alloc, t, &inner_onto(alloc, rows, Vec::new(alloc))?),
        PlainType::Extension(_, t, _) => passes(alloc, t, rows),
        PlainType::FixedSizeList(t, k, _) => passes(
            alloc,
            t,
            &fixed_onto(alloc, t, *k, rows, Vec::new(alloc))?,
        ),
        _ => Ok(false),
    }
}

#[cycle(passes)]
fn column_passes(
    alloc: Global,
    t: &PlainType,
    i: u64,
    rows: &[PlainRow],
) -> Result<bool, AllocError>
    ensures { IfOk result (λ b. b
        ≡ term_passes (term_of t.now) (term_column (term_of t.now) i (map row_of rows.now))) }
{
    let column = column_onto(alloc, t, i, rows, Vec::new(alloc))?;
    passes(alloc, t, &column)
}

#[cycle(passes)]
fn fields_pass(
    alloc: Global,
    fields: &PlainFields,
    i: u64,
    rows: &[PlainRow],
) -> Result<bool, AllocError>
    ensures { IfOk result (λ b. b ≡ columns_pass (fields_of fields.now) i (map row_of rows.now)) }
{
    let PlainFields::Field(_, t, rest) = fields else {
        return Ok(false);
    };
    if column_passes(alloc, t, i, rows)? {
        return Ok(true);
    }
    // a type with so many fields has no room in memory
    let Some(next) = i.checked_add(1) else {
        return Err(AllocError);
    };
    fields_pass(alloc, rest, next, rows)
}
