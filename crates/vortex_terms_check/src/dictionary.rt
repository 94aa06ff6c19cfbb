//! Distinct rows and codes.

ghost use Rattle.std.specs.Prelude.{◌≡◌, ◌++◌, ◌≤◌, map, length, IfOk};
ghost use Rattle.vortex_terms.specs.Distinct.{distinct as term_distinct, first_place as term_place, codes_of as term_codes};
ghost use Rattle.vortex_terms_check.specs.Plain.{row_of};

use crate::defaults::copy;
use crate::plain::PlainRow;
use crate::rows::compare;
use crate::sizes::stands;
use std::alloc::{AllocError, Global};

/// The rows without each that stands earlier.
pub fn distinct(alloc: Global, rows: &[PlainRow]) -> Result<Vec<PlainRow>, AllocError>
    ensures { IfOk result (λ v. map row_of v.items ≡ term_distinct (map row_of rows.now)) }
{
    match rows {
        [] => Ok(Vec::new(alloc)),
        [before @ .., last] => {
            let mut out = distinct(alloc, before)?;
            if stands(last, &out) {
                return Ok(out);
            }
            out.push(copy(alloc, last)?)?;
            Ok(out)
        }
    }
}

/// The first place of the row in the list, or the list's length.
fn first_place(r: &PlainRow, rows: &[PlainRow]) -> usize
    ensures place { result ≡ term_place (row_of r.now) (map row_of rows.now) }
    ensures within { result ≤ length rows.now }
{
    match rows {
        [] => 0,
        [first, rest @ ..] => {
            if compare(r, first).is_eq() {
                0
            } else {
                first_place(r, rest) + 1
            }
        }
    }
}

/// The codes, and then the place of each row among the distinct ones.
fn codes_onto(
    rows: &[PlainRow],
    values: &[PlainRow],
    mut out: Vec<usize>,
) -> Result<Vec<usize>, AllocError>
    ensures { IfOk result (λ v. v.items ≡ out.items
        ++ map (λ r. term_place r (map row_of values.now)) (map row_of rows.now)) }
{
    match rows {
        [] => Ok(out),
        [first, rest @ ..] => {
            out.push(first_place(first, values))?;
            codes_onto(rest, values, out)
        }
    }
}

/// For each row its place among the distinct ones.
pub fn codes_of(alloc: Global, rows: &[PlainRow]) -> Result<Vec<usize>, AllocError>
    ensures { IfOk result (λ v. v.items ≡ term_codes (map row_of rows.now)) }
{
    let values = distinct(alloc, rows)?;
    codes_onto(rows, &values, Vec::new(alloc))
}
