//! What is asked of types.

ghost use Rattle.std.specs.Prelude.{◌≡◌, min};
ghost use Rattle.vortex_terms.specs.Types.{nullable as term_nullable, levels as term_levels, nodes as term_nodes, text_length as term_text_length, fields_levels, fields_nodes, fields_text_length};
ghost use Rattle.std.specs.Option.{option_eq, option_map};
ghost use Rattle.std.specs.Str.{bytes_eq};
ghost use Rattle.vortex_terms.specs.Equality.{is_same, fields_eq};
ghost use Rattle.vortex_terms.specs.Types.{bare_fields};
ghost use Rattle.vortex_terms_check.specs.Plain.{term_of, fields_of};

use crate::plain::{PlainFields, PlainType};

/// Whether a row of the type may be null.
pub fn nullable(t: &PlainType) -> bool
    ensures { result ≡ term_nullable (term_of t.now) }
{
    match t {
        PlainType::Null => true,
        PlainType::Bool(n) | PlainType::Utf8(n) | PlainType::Binary(n) => *n,
        PlainType::Primitive(_, n) | PlainType::Decimal(_, _, n) => *n,
        PlainType::Struct(_, n) | PlainType::ListOf(_, n) => *n,
        PlainType::Extension(_, t, _) => nullable(t),
        PlainType::FixedSizeList(_, _, n) => *n,
    }
}

/// How deep the type nests, as far as the answer's type reaches.
#[cycle(levels)]
pub fn levels(t: &PlainType) -> u64
    ensures { result ≡ min (term_levels (term_of t.now)) u64.MAX }
{
    match t {
        PlainType::Struct(fields, _) => levels_of_fields(fields).saturating_add(1),
        PlainType::ListOf(t, _) | PlainType::Extension(_, t, _) => levels(t).saturating_add(1),
        PlainType::FixedSizeList(t, _, _) => levels(t).saturating_add(1),
        _ => 1,
    }
}

#[cycle(levels)]
fn levels_of_fields(fields: &PlainFields) -> u64
    ensures { result ≡ min (fields_levels (fields_of fields.now)) u64.MAX }
{
    match fields {
        PlainFields::End => 0,
        PlainFields::Field(_, t, rest) => levels(t).max(levels_of_fields(rest)),
    }
}

/// How many types the type has in it, as far as the answer's type reaches.
#[cycle(nodes)]
pub fn nodes(t: &PlainType) -> u64
    ensures { result ≡ min (term_nodes (term_of t.now)) u64.MAX }
{
    match t {
        PlainType::Struct(fields, _) => nodes_of_fields(fields).saturating_add(1),
        PlainType::ListOf(t, _) | PlainType::Extension(_, t, _) => nodes(t).saturating_add(1),
        PlainType::FixedSizeList(t, _, _) => nodes(t).saturating_add(1),
        _ => 1,
    }
}

#[cycle(nodes)]
fn nodes_of_fields(fields: &PlainFields) -> u64
    ensures { result ≡ min (fields_nodes (fields_of fields.now)) u64.MAX }
{
    match fields {
        PlainFields::End => 0,
        PlainFields::Field(_, t, rest) => nodes(t).saturating_add(nodes_of_fields(rest)),
    }
}

/// How many bytes its names, ids and metadata have, as far as the answer's type reaches.
#[cycle(text_length)]
pub fn text_length(t: &PlainType) -> usize
    ensures { result ≡ min (term_text_length (term_of t.now)) usize.MAX }
{
    match t {
        PlainType::Struct(fields, _) => text_length_of_fields(fields),
        PlainType::ListOf(t, _) | PlainType::FixedSizeList(t, _, _) => text_length(t),
        PlainType::Extension(id, t, None) => id.len().saturating_add(text_length(t)),
        PlainType::Extension(id, t, Some(metadata)) => id
            .len()
            .saturating_add(metadata.len())
            .saturating_add(text_length(t)),
        _ => 0,
    }
}

#[cycle(text_length)]
fn text_length_of_fields(fields: &PlainFields) -> usize
    ensures { result ≡ min (fields_text_length (fields_of fields.now)) usize.MAX }
{
    match fields {
        PlainFields::End => 0,
        PlainFields::Field(name, t, rest) => name
            .len()
            .saturating_add(text_length(t))
            .saturating_add(text_length_of_fields(rest)),
    }
}

pub(crate) fn same_text(a: &Vec<u8>, b: &Vec<u8>) -> bool
    ensures { result ≡ bytes_eq a.now.items b.now.items }
{
    a.as_slice() == b.as_slice()
}

fn same_metadata(a: &Option<Vec<u8>>, b: &Option<Vec<u8>>) -> bool
    ensures { result
        ≡ option_eq bytes_eq (option_map (λ v. v.items) a.now) (option_map (λ v. v.items) b.now) }
{
    match (a, b) {
        (None, None) => true,
        (Some(a), Some(b)) => same_text(a, b),
        _ => false,
    }
}

/// Whether the types are the same apart from nullability.
#[cycle(same)]
pub fn same(t: &PlainType, u: &PlainType) -> bool
    ensures { result ≡ is_same (term_of t.now) (term_of u.now) }
{
    match (t, u) {
        (PlainType::Null, PlainType::Null) => true,
        (PlainType::Bool(_), PlainType::Bool(_)) => true,
        (PlainType::Primitive(k, _), PlainType::Primitive(l, _)) => k == l,
        (PlainType::Decimal(p, s, _), PlainType::Decimal(q, r, _)) => p == q && s == r,
        (PlainType::Utf8(_), PlainType::Utf8(_)) => true,
        (PlainType::Binary(_), PlainType::Binary(_)) => true,
        (PlainType::Struct(fs, _), PlainType::Struct(gs, _)) => same_fields(fs, gs),
        (PlainType::ListOf(t, _), PlainType::ListOf(u, _)) => same(t, u),
        (PlainType::Extension(id, t, m), PlainType::Extension(other, u, l)) => {
            same_text(id, other) && same_metadata(m, l) && same(t, u)
        }
        (PlainType::FixedSizeList(t, k, _), PlainType::FixedSizeList(u, l, _)) => k == l
            && same(t, u),
        _ => false,
    }
}

#[cycle(same)]
fn same_fields(fs: &PlainFields, gs: &PlainFields) -> bool
    ensures { result ≡ fields_eq (bare_fields (fields_of fs.now)) (bare_fields (fields_of gs.now)) }
{
    match (fs, gs) {
        (PlainFields::End, PlainFields::End) => true,
        (PlainFields::Field(x, t, fs), PlainFields::Field(y, u, gs)) => same_text(x, y)
            && same(t, u)
            && same_fields(fs, gs),
        _ => false,
    }
}
