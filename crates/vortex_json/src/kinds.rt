//! Kinds of whole numbers, and whether rows may be null.

ghost use Rattle.std.specs.Prelude.{◌≡◌, IfOk, IsOkAnd, IsOkUnless};
ghost use Rattle.std.specs.Option.{ok_or, option_map};
ghost use Rattle.serde_json.specs.View.{view};
ghost use Rattle.vortex_names.specs.Nullable.{is_nullable, nullability_of};
ghost use Rattle.vortex_number.specs.PType.{ptype_text};
ghost use Rattle.vortex_number.specs.WholeKind.{ptype_of, whole_kind};
ghost use Rattle.vortex_json.specs.Found.{flag_found, kind_found, kind_named};
ghost use Rattle.vortex_json.specs.Written.{flag_json, kind_json};

use serde_json::Value;
use std::alloc::{AllocError, Global};
use vortex_names::Nullability;
use vortex_number::PType;
use vortex_time::TemporalError;

/// A kind of whole numbers as a text.
pub fn ptype_to_json(alloc: Global, ptype: &PType) -> Result<Value, TemporalError>
    ensures json { IfOk result (λ v. view v ≡ kind_json (whole_kind ptype.now)) }
    ensures memory { IsOkUnless result TemporalError.OutOfMemory }
{
    Ok(kind_value(alloc, *ptype)?)
}

/// The kind of whole numbers that a text names. BadJson where it names none. It takes no memory.
pub fn ptype_from_json(_alloc: Global, value: &Value) -> Result<PType, TemporalError>
    ensures { result ≡ ok_or (option_map ptype_of (kind_found (view value.now))) TemporalError.BadJson }
{
    kind_of(value).ok_or(TemporalError::BadJson)
}

/// Whether rows may be null, as a truth value. It takes no memory.
pub fn nullability_to_json(
    _alloc: Global,
    nullability: &Nullability,
) -> Result<Value, TemporalError>
    ensures { IsOkAnd result (λ v. view v ≡ flag_json (is_nullable nullability.now)) }
{
    Ok(Value::Bool(bool::from(*nullability)))
}

/// Whether rows may be null, of a truth value. BadJson where the value is none. It takes no memory.
pub fn nullability_from_json(_alloc: Global, value: &Value) -> Result<Nullability, TemporalError>
    ensures { result
        ≡ ok_or (option_map nullability_of (flag_found (view value.now))) TemporalError.BadJson }
{
    flag_of(value).ok_or(TemporalError::BadJson)
}

/// A kind of whole numbers as a text.
pub(crate) fn kind_value(alloc: Global, ptype: PType) -> Result<Value, AllocError>
    ensures { IfOk result (λ v. view v ≡ kind_json (whole_kind ptype)) }
{
    Value::try_from_str(alloc, kind_name(ptype))
}

fn kind_name(ptype: PType) -> &'static str
    ensures { result.now ≡ ptype_text ptype }
{
    match ptype {
        PType::U8 => "u8",
        PType::U16 => "u16",
        PType::U32 => "u32",
        PType::U64 => "u64",
        PType::I8 => "i8",
        PType::I16 => "i16",
        PType::I32 => "i32",
        PType::I64 => "i64",
    }
}

/// The kind of whole numbers that a text names.
pub(crate) fn kind_of(value: &Value) -> Option<PType>
    ensures { result ≡ option_map ptype_of (kind_found (view value.now)) }
{
    kind_of_name(value.as_str()?)
}

fn kind_of_name(name: &str) -> Option<PType>
    ensures { result ≡ option_map ptype_of (kind_named name.now) }
{
    match name {
        "u8" => Some(PType::U8),
        "u16" => Some(PType::U16),
        "u32" => Some(PType::U32),
        "u64" => Some(PType::U64),
        "i8" => Some(PType::I8),
        "i16" => Some(PType::I16),
        "i32" => Some(PType::I32),
        "i64" => Some(PType::I64),
        _ => None,
    }
}

/// Whether rows may be null, of a truth value.
pub(crate) fn flag_of(value: &Value) -> Option<Nullability>
    ensures { result ≡ option_map nullability_of (flag_found (view value.now)) }
{
    Some(Nullability::from(value.as_bool()?))
}
