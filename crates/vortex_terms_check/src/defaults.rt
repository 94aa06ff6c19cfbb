//! Copies of rows, and defaults.

ghost use Rattle.std.specs.Prelude.{◌≡◌, IfOk};
ghost use Rattle.vortex_terms.specs.Row.{rows_from, copies as term_copies};
ghost use Rattle.vortex_terms.specs.Default.{default_row as term_default, default_rows as fields_default};
ghost use Rattle.vortex_terms_check.specs.Plain.{term_of, fields_of, row_of, rows_of};

use crate::plain::{PlainFields, PlainRow, PlainRows, PlainType};
use std::alloc::{AllocError, Global};

/// A copy of the row.
#[cycle(copy)]
pub fn copy(alloc: Global, r: &PlainRow) -> Result<PlainRow, AllocError>
    ensures { IfOk result (λ s. row_of s ≡ row_of r.now) }
{
    match r {
        PlainRow::Null => Ok(PlainRow::Null),
        PlainRow::Truth(b) => Ok(PlainRow::Truth(*b)),
        PlainRow::Whole(z) => Ok(PlainRow::Whole(*z)),
        PlainRow::Bytes(bytes) => Ok(PlainRow::Bytes(Vec::from_slice(alloc, bytes)?)),
        PlainRow::Items(rs) => Ok(PlainRow::Items(copy_items(alloc, rs)?)),
    }
}

#[cycle(copy)]
fn copy_items(alloc: Global, rs: &PlainRows) -> Result<PlainRows, AllocError>
    ensures { IfOk result (λ ss. rows_of ss ≡ rows_of rs.now) }
{
    match rs {
        PlainRows::End => Ok(PlainRows::End),
        PlainRows::Row(r, rest) => {
            let first = Box::new(alloc, copy(alloc, r)?)?;
            let others = Box::new(alloc, copy_items(alloc, rest)?)?;
            Ok(PlainRows::Row(first, others))
        }
    }
}

/// As many copies of the row.
#[tactic(auto, unfolding(vortex_terms::specs::Row::copies))]
fn copies(alloc: Global, r: &PlainRow, count: u32) -> Result<PlainRows, AllocError>
    ensures { IfOk result (λ rs. rows_of rs ≡ rows_from (term_copies count (row_of r.now))) }
{
    if count == 0 {
        return Ok(PlainRows::End);
    }
    let first = Box::new(alloc, copy(alloc, r)?)?;
    let others = Box::new(alloc, copies(alloc, r, count - 1)?)?;
    Ok(PlainRows::Row(first, others))
}

/// The default row of the type.
#[cycle(defaults)]
pub fn default_row(alloc: Global, t: &PlainType) -> Result<PlainRow, AllocError>
    ensures { IfOk result (λ r. row_of r ≡ term_default (term_of t.now)) }
{
    match t {
        PlainType::Null => Ok(PlainRow::Null),
        PlainType::Bool(n) => Ok(if *n {
            PlainRow::Null
        } else {
            PlainRow::Truth(false)
        }),
        PlainType::Primitive(_, n) | PlainType::Decimal(_, _, n) => Ok(if *n {
            PlainRow::Null
        } else {
            PlainRow::Whole(0)
        }),
        PlainType::Utf8(n) | PlainType::Binary(n) => Ok(if *n {
            PlainRow::Null
        } else {
            PlainRow::Bytes(Vec::new(alloc))
        }),
        PlainType::ListOf(_, n) => Ok(if *n {
            PlainRow::Null
        } else {
            PlainRow::Items(PlainRows::End)
        }),
        PlainType::Struct(fields, n) => {
            if *n {
                Ok(PlainRow::Null)
            } else {
                Ok(PlainRow::Items(default_rows(alloc, fields)?))
            }
        }
        PlainType::Extension(_, t, _) => default_row(alloc, t),
        PlainType::FixedSizeList(t, k, n) => {
            if *n {
                return Ok(PlainRow::Null);
            }
            let one = default_row(alloc, t)?;
            Ok(PlainRow::Items(copies(alloc, &one, *k)?))
        }
    }
}

#[cycle(defaults)]
fn default_rows(alloc: Global, fields: &PlainFields) -> Result<PlainRows, AllocError>
    ensures { IfOk result (λ rs. rows_of rs ≡ fields_default (fields_of fields.now)) }
{
    match fields {
        PlainFields::End => Ok(PlainRows::End),
        PlainFields::Field(_, t, rest) => {
            let first = Box::new(alloc, default_row(alloc, t)?)?;
            let others = Box::new(alloc, default_rows(alloc, rest)?)?;
            Ok(PlainRows::Row(first, others))
        }
    }
}
