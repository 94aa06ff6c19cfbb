//! What a query asks of a type, and which rows it keeps.

ghost use Rattle.std.specs.Prelude.{◌≡◌, ◌++◌, map, min, filter, IfOk};
ghost use Rattle.std.specs.Option.{option_map};
ghost use Rattle.vortex_terms.specs.Row.{is_null};
ghost use Rattle.vortex_terms.specs.Path.{by_name, target as term_target};
ghost use Rattle.vortex_terms.specs.Types.{storage_of};
ghost use Rattle.vortex_terms.specs.Selection.{is_comparable as term_comparable, matches as term_matches, is_kept, selected as term_selected, rows_in as term_rows_in};
ghost use Rattle.vortex_terms_check.specs.Plain.{term_of, row_of, holds};

use crate::defaults::copy;
use crate::paths::{keeps, type_named};
use crate::plain::{PlainRelation, PlainRow, PlainType};
use crate::types::same;
use std::alloc::{AllocError, Global};

/// The storage of an extension, and else the type.
fn storage(t: &PlainType) -> &PlainType
    ensures { term_of result.now ≡ storage_of (term_of t.entry.now) }
{
    match t {
        PlainType::Extension(_, t, _) => t,
        _ => t,
    }
}

/// The type that the names lead to.
pub fn target<'a>(t: &'a PlainType, path: &[Vec<u8>]) -> Option<&'a PlainType>
    ensures { option_map (λ u. term_of u.now) result
        ≡ term_target (term_of t.entry.now) (map (λ x. by_name x.items) path.now) }
{
    let [name, rest @ ..] = path else {
        return Some(storage(t));
    };
    match t {
        PlainType::Struct(fields, _) => match type_named(fields, name) {
            Some(u) => target(u, rest),
            None => None,
        },
        _ => None,
    }
}

/// Whether rows of the type may be compared with a constant.
fn is_comparable(t: &PlainType) -> bool
    ensures { result ≡ term_comparable (term_of t.now) }
{
    match t {
        PlainType::Bool(_) | PlainType::Utf8(_) | PlainType::Binary(_) => true,
        PlainType::Primitive(..) | PlainType::Decimal(..) => true,
        _ => false,
    }
}

fn is_null_row(r: &PlainRow) -> bool
    ensures { result ≡ is_null (row_of r.now) }
{
    matches!(r, PlainRow::Null)
}

/// Whether the query can be asked of the type.
pub fn matches(t: &PlainType, path: &[Vec<u8>], u: &PlainType, constant: &PlainRow) -> bool
    ensures { result ≡ term_matches (term_of t.now) (map (λ x. by_name x.items) path.now)
        (term_of u.now) (row_of constant.now) }
{
    match target(t, path) {
        Some(v) => is_comparable(v) && same(v, u) && !is_null_row(constant),
        None => false,
    }
}

/// The rows, and then those of an array that are kept.
fn kept_onto(
    alloc: Global,
    t: &PlainType,
    rows: &[PlainRow],
    path: &[Vec<u8>],
    relation: PlainRelation,
    constant: &PlainRow,
    mut out: Vec<PlainRow>,
) -> Result<Vec<PlainRow>, AllocError>
    ensures { IfOk result (λ v. map row_of v.items ≡ map row_of out.items
        ++ filter (is_kept (term_of t.now) (map (λ x. by_name x.items) path.now) (holds relation)
        (row_of constant.now)) (map row_of rows.now)) }
{
    match rows {
        [] => Ok(out),
        [first, rest @ ..] => {
            if keeps(t, first, path, relation, constant) {
                out.push(copy(alloc, first)?)?;
            }
            kept_onto(alloc, t, rest, path, relation, constant, out)
        }
    }
}

/// The arrays, and then the kept rows of each other array.
fn selected_onto(
    alloc: Global,
    t: &PlainType,
    arrays: &[Vec<PlainRow>],
    path: &[Vec<u8>],
    relation: PlainRelation,
    constant: &PlainRow,
    mut out: Vec<Vec<PlainRow>>,
) -> Result<Vec<Vec<PlainRow>>, AllocError>
    ensures { IfOk result (λ v. map (λ a. map row_of a.items) v.items
        ≡ map (λ a. map row_of a.items) out.items
        ++ term_selected (term_of t.now) (map (λ a. map row_of a.items) arrays.now)
        (map (λ x. by_name x.items) path.now) (holds relation) (row_of constant.now)) }
{
    match arrays {
        [] => Ok(out),
        [first, rest @ ..] => {
            out.push(kept_onto(alloc, t, first, path, relation, constant, Vec::new(alloc))?)?;
            selected_onto(alloc, t, rest, path, relation, constant, out)
        }
    }
}

/// Of each array the rows that are kept.
pub fn selected(
    alloc: Global,
    t: &PlainType,
    arrays: &[Vec<PlainRow>],
    path: &[Vec<u8>],
    relation: PlainRelation,
    constant: &PlainRow,
) -> Result<Vec<Vec<PlainRow>>, AllocError>
    ensures { IfOk result (λ v. map (λ a. map row_of a.items) v.items
        ≡ term_selected (term_of t.now) (map (λ a. map row_of a.items) arrays.now)
        (map (λ x. by_name x.items) path.now) (holds relation) (row_of constant.now)) }
{
    selected_onto(alloc, t, arrays, path, relation, constant, Vec::new(alloc))
}

/// How many rows the arrays have, as far as the answer's type reaches.
pub fn rows_in(arrays: &[Vec<PlainRow>]) -> usize
    ensures { result ≡ min (term_rows_in (map (λ a. map row_of a.items) arrays.now)) usize.MAX }
{
    match arrays {
        [] => 0,
        [first, rest @ ..] => first.len().saturating_add(rows_in(rest)),
    }
}
