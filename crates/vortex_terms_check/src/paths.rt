//! What a path finds in a row.

ghost use Rattle.std.specs.Prelude.{◌≡◌, map};
ghost use Rattle.std.specs.Option.{option_and_then, option_map};
ghost use Rattle.vortex_terms.specs.Row.{row_at};
ghost use Rattle.vortex_terms.specs.Types.{place_of, field_named};
ghost use Rattle.vortex_terms.specs.Selection.{is_kept};
ghost use Rattle.vortex_terms.specs.Path.{by_name, value_at as term_value_at};
ghost use Rattle.vortex_terms_check.specs.Plain.{term_of, fields_of, row_of, rows_of, found, holds};

use crate::plain::{PlainFields, PlainRelation, PlainRow, PlainRows, PlainType};
use crate::rows::compare;
use crate::types::same_text;
use std::cmp::Ordering;

/// The type of the first field of the name.
pub(crate) fn type_named<'a>(fields: &'a PlainFields, name: &Vec<u8>) -> Option<&'a PlainType>
    ensures { option_map (λ t. term_of t.now) result
        ≡ field_named (fields_of fields.entry.now) name.now.items }
{
    match fields {
        PlainFields::End => None,
        PlainFields::Field(x, t, rest) => {
            if same_text(x, name) {
                Some(t)
            } else {
                type_named(rest, name)
            }
        }
    }
}

/// The row of that field.
fn row_named<'a>(fields: &PlainFields, rs: &'a PlainRows, name: &Vec<u8>) -> Option<&'a PlainRow>
    ensures { option_map (λ r. row_of r.now) result
        ≡ option_and_then (row_at (rows_of rs.entry.now)) (place_of (fields_of fields.now)
        name.now.items) }
{
    match (fields, rs) {
        (PlainFields::Field(x, _, fields), PlainRows::Row(r, rest)) => {
            if same_text(x, name) {
                Some(r)
            } else {
                row_named(fields, rest, name)
            }
        }
        _ => None,
    }
}

/// The value at the path, and none for null.
#[tactic(auto, using(crate::proofs::Steps::null_step, crate::proofs::Steps::no_row, crate::proofs::Steps::no_field))]
pub fn value_at<'a>(t: &PlainType, r: &'a PlainRow, path: &[Vec<u8>]) -> Option<&'a PlainRow>
    ensures { found result
        ≡ term_value_at (term_of t.now) (row_of r.entry.now) (map (λ x. by_name x.items) path.now) }
{
    let [name, rest @ ..] = path else {
        return Some(r);
    };
    match t {
        PlainType::Struct(fields, _) => match r {
            PlainRow::Items(rs) => match type_named(fields, name) {
                Some(u) => match row_named(fields, rs, name) {
                    Some(s) => value_at(u, s, rest),
                    None => None,
                },
                None => None,
            },
            _ => None,
        },
        _ => None,
    }
}

fn bears(relation: PlainRelation, order: Ordering) -> bool
    ensures { result ≡ holds relation order }
{
    match relation {
        PlainRelation::Equal => order.is_eq(),
        PlainRelation::NotEqual => order.is_ne(),
        PlainRelation::Less => order.is_lt(),
        PlainRelation::AtMost => order.is_le(),
        PlainRelation::Greater => order.is_gt(),
        PlainRelation::AtLeast => order.is_ge(),
    }
}

/// Whether the value at the path is not null and stands in the relation to the constant.
pub fn keeps(
    t: &PlainType,
    r: &PlainRow,
    path: &[Vec<u8>],
    relation: PlainRelation,
    constant: &PlainRow,
) -> bool
    ensures { result
        ≡ is_kept (term_of t.now) (map (λ x. by_name x.items) path.now) (holds relation) (row_of
        constant.now) (row_of r.now) }
{
    match value_at(t, r, path) {
        None => false,
        Some(PlainRow::Null) => false,
        Some(s) => bears(relation, compare(s, constant)),
    }
}
