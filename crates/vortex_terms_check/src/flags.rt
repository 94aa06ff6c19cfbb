//! Types without their flags, and the types inside a type.

ghost use Rattle.std.specs.Prelude.{◌≡◌, IfOk, slice_get, ◌∷◌, []};
ghost use Rattle.std.specs.Option.{option_map};
ghost use Rattle.vortex_terms.specs.Types.{bare as term_bare, bare_fields, part_at, types_of, type_number as term_number};
ghost use Rattle.vortex_terms_check.specs.Plain.{term_of, fields_of};

use crate::plain::{PlainFields, PlainType};
use std::alloc::{AllocError, Global};

fn copied(alloc: Global, bytes: &Option<Vec<u8>>) -> Result<Option<Vec<u8>>, AllocError>
    ensures { IfOk result (λ m. option_map (λ v. v.items) m ≡ option_map (λ v. v.items) bytes.now) }
{
    match bytes {
        None => Ok(None),
        Some(bytes) => Ok(Some(Vec::from_slice(alloc, bytes)?)),
    }
}

/// The type with nothing in it nullable, but null itself.
#[cycle(bare)]
pub fn bare(alloc: Global, t: &PlainType) -> Result<PlainType, AllocError>
    ensures { IfOk result (λ u. term_of u ≡ term_bare (term_of t.now)) }
{
    match t {
        PlainType::Null => Ok(PlainType::Null),
        PlainType::Bool(_) => Ok(PlainType::Bool(false)),
        PlainType::Primitive(k, _) => Ok(PlainType::Primitive(*k, false)),
        PlainType::Decimal(p, s, _) => Ok(PlainType::Decimal(*p, *s, false)),
        PlainType::Utf8(_) => Ok(PlainType::Utf8(false)),
        PlainType::Binary(_) => Ok(PlainType::Binary(false)),
        PlainType::Struct(fields, _) => Ok(PlainType::Struct(without_flags(alloc, fields)?, false)),
        PlainType::ListOf(t, _) => {
            let inner = Box::new(alloc, bare(alloc, t)?)?;
            Ok(PlainType::ListOf(inner, false))
        }
        PlainType::Extension(id, t, m) => {
            let id = Vec::from_slice(alloc, id)?;
            let inner = Box::new(alloc, bare(alloc, t)?)?;
            Ok(PlainType::Extension(id, inner, copied(alloc, m)?))
        }
        PlainType::FixedSizeList(t, k, _) => {
            let inner = Box::new(alloc, bare(alloc, t)?)?;
            Ok(PlainType::FixedSizeList(inner, *k, false))
        }
    }
}

#[cycle(bare)]
fn without_flags(alloc: Global, fields: &PlainFields) -> Result<PlainFields, AllocError>
    ensures { IfOk result (λ gs. fields_of gs ≡ bare_fields (fields_of fields.now)) }
{
    match fields {
        PlainFields::End => Ok(PlainFields::End),
        PlainFields::Field(name, t, rest) => {
            let name = Vec::from_slice(alloc, name)?;
            let first = Box::new(alloc, bare(alloc, t)?)?;
            let others = Box::new(alloc, without_flags(alloc, rest)?)?;
            Ok(PlainFields::Field(name, first, others))
        }
    }
}

fn field_type(fields: &PlainFields, i: u64) -> Option<&PlainType>
    ensures { option_map (λ t. term_of t.now) result
        ≡ slice_get (types_of (fields_of fields.entry.now)) i }
{
    match fields {
        PlainFields::End => None,
        PlainFields::Field(_, t, rest) => {
            if i == 0 {
                Some(t)
            } else {
                field_type(rest, i - 1)
            }
        }
    }
}

fn only(t: &PlainType, i: u64) -> Option<&PlainType>
    ensures { option_map (λ t. term_of t.now) result ≡ slice_get (term_of t.entry.now ∷ []) i }
{
    if i == 0 { Some(t) } else { None }
}

/// The type at a place among those directly inside the type.
pub fn part(t: &PlainType, i: u64) -> Option<&PlainType>
    ensures { option_map (λ t. term_of t.now) result ≡ part_at (term_of t.entry.now) i }
{
    match t {
        PlainType::Struct(fields, _) => field_type(fields, i),
        PlainType::ListOf(t, _) => only(t, i),
        PlainType::Extension(_, t, _) => only(t, i),
        PlainType::FixedSizeList(t, _, _) => only(t, i),
        _ => None,
    }
}

/// The number of the kind of type.
pub fn type_number(t: &PlainType) -> u8
    ensures { result ≡ term_number (term_of t.now) }
{
    match t {
        PlainType::Null => 1,
        PlainType::Bool(_) => 2,
        PlainType::Primitive(..) => 3,
        PlainType::Decimal(..) => 4,
        PlainType::Utf8(_) => 5,
        PlainType::Binary(_) => 6,
        PlainType::Struct(..) => 7,
        PlainType::ListOf(..) => 8,
        PlainType::Extension(..) => 9,
        PlainType::FixedSizeList(..) => 10,
    }
}
