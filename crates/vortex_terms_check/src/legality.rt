//! Which types can be held in memory, and which are within the limits.

ghost use Rattle.std.specs.Prelude.{◌≡◌, ◌↔◌, ◌<◌, ◌^◌, IfSome, IsTrue};
ghost use Rattle.std.specs.Option.{option_map};
ghost use Rattle.vortex_terms.specs.Types.{IsBytes, IsDecimal, is_extension as term_is_extension, Legal, LegalFields, Bounded};
ghost use Rattle.vortex_terms_check.specs.Plain.{term_of, fields_of};

use crate::plain::{PlainFields, PlainType};
use crate::rows::{are_bytes, is_text};
use crate::types::{levels, nodes, text_length};

fn is_decimal(p: u8, s: i8) -> bool
    ensures { IsTrue result ↔ IsDecimal p s }
{
    1 <= p && p <= 76 && i16::from(s) <= i16::from(p)
}

fn is_extension(t: &PlainType) -> bool
    ensures { result ≡ term_is_extension (term_of t.now) }
{
    matches!(t, PlainType::Extension(..))
}

fn is_size(k: u32) -> bool
    ensures always { IsTrue result }
    ensures small { k < 2 ^ 32 }
{
    let _ = k;
    true
}

fn is_metadata(metadata: &Option<Vec<u8>>) -> bool
    ensures always { IsTrue result }
    ensures bytes { IfSome (option_map (λ v. v.items) metadata.now) IsBytes }
{
    match metadata {
        None => true,
        Some(bytes) => are_bytes(bytes),
    }
}

/// Whether the type can be held in memory.
#[cycle(legal)]
pub fn legal(t: &PlainType) -> bool
    ensures { IsTrue result ↔ Legal (term_of t.now) }
{
    match t {
        PlainType::Decimal(p, s, _) => is_decimal(*p, *s),
        PlainType::Struct(fields, _) => legal_fields(fields),
        PlainType::ListOf(t, _) => legal(t),
        PlainType::Extension(id, t, m) => is_text(id)
            && is_metadata(m)
            && !is_extension(t)
            && legal(t),
        PlainType::FixedSizeList(t, k, _) => is_size(*k) && legal(t),
        _ => true,
    }
}

#[cycle(legal)]
fn legal_fields(fields: &PlainFields) -> bool
    ensures { IsTrue result ↔ LegalFields (fields_of fields.now) }
{
    match fields {
        PlainFields::End => true,
        PlainFields::Field(name, t, rest) => is_text(name) && legal(t) && legal_fields(rest),
    }
}

/// Whether the type is within the limits too.
pub fn bounded(t: &PlainType) -> bool
    ensures { IsTrue result ↔ Bounded (term_of t.now) }
{
    levels(t) <= 64 && nodes(t) <= 1_000_000 && text_length(t) <= 67_108_864 && legal(t)
}
