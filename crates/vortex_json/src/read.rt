//! Types read from JSON values.

ghost use Rattle.std.specs.Prelude.{◌≡◌, length, false, IfOk, IsOkUnless};
ghost use Rattle.std.specs.Option.{option_map};
ghost use Rattle.serde_json.specs.View.{items_view, view};
ghost use Rattle.vortex_names.specs.Nullable.{is_nullable};
ghost use Rattle.vortex_terms.specs.Term.{extension};
ghost use Rattle.vortex_terms.specs.Tests.{is_decimal};
ghost use Rattle.vortex_terms.specs.Types.{Bounded, fields_from, is_extension};
ghost use Rattle.vortex_types.specs.DTypes.{term_of};
ghost use Rattle.vortex_types.specs.Standing.{IsFoundAs};
ghost use Rattle.vortex_json.specs.Answers.{IsFound};
ghost use Rattle.vortex_json.specs.Found.{bare_found, decimal_found, decimal_of, each_found};
ghost use Rattle.vortex_json.specs.Found.{extension_found, fixed_size_list_found, list_found};
ghost use Rattle.vortex_json.specs.Found.{metadata_found, named_found, owned_found};
ghost use Rattle.vortex_json.specs.Found.{primitive_found, structure_found, term_found};
ghost use Rattle.vortex_json.specs.Found.{type_found, type_in};

use crate::lists::{read_bytes, read_names};
use crate::parts::{
    count, flag, items, kind, member, only_member, pair, size, text, triple, whole,
};
use crate::room::is_within;
use serde_json::Value;
use std::alloc::Global;
use std::rc::Rc;
use vortex_names::{
    DTypeError, DecimalDType, ExtID, ExtMetadata, FieldName, FieldNames, Nullability,
};
use vortex_time::TemporalError;
use vortex_types::{DType, Element, ExtDType, FieldDType, StructFields};

/// How deep a type nests at most.
const MOST_LEVELS: usize = 64;

/// The type that a value stands for. BadJson where it stands for none within the limits.
///
/// A value that nests deeper than the limits allow is not gone into. The time is linear in the value.
#[tactic(auto, using(crate::proofs::Found::bounded_found))]
pub fn dtype_from_json(alloc: Global, value: &Value) -> Result<DType, TemporalError>
    ensures found { IsFound term_of result (type_found (view value.now)) }
    ensures bounded { IfOk result (λ t. Bounded (term_of t)) }
{
    match read_type(alloc, value, MOST_LEVELS) {
        Ok(dtype) => {
            dtype.law();
            if is_within(dtype.type_ref()) {
                Ok(dtype)
            } else {
                Err(TemporalError::BadJson)
            }
        }
        Err(DTypeError::OutOfMemory) => Err(TemporalError::OutOfMemory),
        Err(_) => Err(TemporalError::BadJson),
    }
}

/// The type that a value stands for, of so many levels at most.
#[cycle(reading)]
#[tactic(auto, using(crate::proofs::Found::no_level, crate::proofs::Found::one_level))]
fn read_type(alloc: Global, value: &Value, levels: usize) -> Result<DType, DTypeError>
    ensures { IsFoundAs term_of result (type_in levels (view value.now)) }
{
    if levels == 0 {
        return Err(DTypeError::Malformed);
    }
    read_term(alloc, value, levels - 1)
}

/// The type that a value stands for, whose parts are of so many levels at most.
#[cycle(reading)]
fn read_term(alloc: Global, value: &Value, levels: usize) -> Result<DType, DTypeError>
    ensures { IsFoundAs term_of result (term_found (type_in levels) (view value.now)) }
{
    match value {
        Value::String(name) => read_bare(name.as_str()),
        Value::Object(members) => match only_member(members) {
            Some((name, content)) => read_named(alloc, name, content, levels),
            None => Err(DTypeError::Malformed),
        },
        Value::Null | Value::Bool(_) | Value::Number(_) | Value::Array(_) => {
            Err(DTypeError::Malformed)
        }
    }
}

/// The type of the kind of this name, to which nothing belongs.
fn read_bare(name: &str) -> Result<DType, DTypeError>
    ensures { IsFoundAs term_of result (bare_found name.now) }
{
    if name == "Null" {
        Ok(DType::Null)
    } else {
        Err(DTypeError::Malformed)
    }
}

/// The type of the kind of this name, to which `content` belongs.
#[cycle(reading)]
#[tactic(auto, unfolding(crate::specs::Found::named_found))]
fn read_named(
    alloc: Global,
    name: &str,
    content: &Value,
    levels: usize,
) -> Result<DType, DTypeError>
    ensures { IsFoundAs term_of result (named_found (type_in levels) name.now (view content.now)) }
{
    match name {
        "Bool" => Ok(DType::Bool(flag(content)?)),
        "Primitive" => read_primitive(content),
        "Decimal" => read_decimal(content),
        "Utf8" => Ok(DType::Utf8(flag(content)?)),
        "Binary" => Ok(DType::Binary(flag(content)?)),
        "Struct" => read_struct(alloc, content, levels),
        "List" => read_list(alloc, content, levels),
        "Extension" => read_extension(alloc, content, levels),
        "FixedSizeList" => read_fixed(alloc, content, levels),
        _ => Err(DTypeError::Malformed),
    }
}

#[tactic(auto, unfolding(crate::specs::Found::primitive_found))]
fn read_primitive(content: &Value) -> Result<DType, DTypeError>
    ensures { IsFoundAs term_of result (primitive_found (view content.now)) }
{
    let (ptype, nullable) = pair(content)?;
    Ok(DType::Primitive(kind(ptype)?, flag(nullable)?))
}

#[tactic(auto, unfolding(crate::specs::Found::decimal_found))]
fn read_decimal(content: &Value) -> Result<DType, DTypeError>
    ensures { IsFoundAs term_of result (decimal_found (view content.now)) }
{
    let (digits, nullable) = pair(content)?;
    let precision = member(digits, "precision")?;
    let scale = member(digits, "scale")?;
    decimal_type(count(precision)?, whole(scale)?, flag(nullable)?)
}

fn decimal_type(precision: u64, scale: i64, nullability: Nullability) -> Result<DType, DTypeError>
    ensures { IsFoundAs term_of result (decimal_of precision scale (is_nullable nullability)) }
{
    if !is_decimal(precision, scale) {
        return Err(DTypeError::Malformed);
    }
    let decimal = DecimalDType::new(precision as u8, scale as i8);
    Ok(DType::Decimal(decimal, nullability))
}

/// Whether there are decimals of this precision and scale.
fn is_decimal(precision: u64, scale: i64) -> bool
    ensures { result ≡ is_decimal precision scale }
{
    1 <= precision && precision <= 76 && -128 <= scale && scale <= precision as i64
}

#[cycle(reading)]
#[tactic(auto, unfolding(crate::specs::Found::list_found))]
fn read_list(alloc: Global, content: &Value, levels: usize) -> Result<DType, DTypeError>
    ensures { IsFoundAs term_of result (list_found (type_in levels) (view content.now)) }
{
    let (part, nullable) = pair(content)?;
    let nullability = flag(nullable)?;
    let element = Element::new(alloc, read_type(alloc, part, levels)?)?;
    Ok(DType::List(element, nullability))
}

#[cycle(reading)]
#[tactic(auto, unfolding(crate::specs::Found::fixed_size_list_found))]
fn read_fixed(alloc: Global, content: &Value, levels: usize) -> Result<DType, DTypeError>
    ensures { IsFoundAs term_of result
        (fixed_size_list_found (type_in levels) (view content.now)) }
{
    let (part, number, nullable) = triple(content)?;
    let size = size(number)?;
    let nullability = flag(nullable)?;
    let element = Element::new(alloc, read_type(alloc, part, levels)?)?;
    Ok(DType::FixedSizeList(element, size, nullability))
}

#[cycle(reading)]
#[tactic(auto, unfolding(crate::specs::Found::extension_found))]
fn read_extension(alloc: Global, content: &Value, levels: usize) -> Result<DType, DTypeError>
    ensures { IsFoundAs term_of result (extension_found (type_in levels) (view content.now)) }
{
    let name = member(content, "id")?;
    let part = member(content, "storage_dtype")?;
    let id = text(name)?;
    let metadata = read_metadata(alloc, content.get("metadata"))?;
    let storage = read_type(alloc, part, levels)?;
    if storage.is_extension() {
        return Err(DTypeError::Malformed);
    }
    extension_type(alloc, id, storage, metadata)
}

/// The metadata of an extension, which are absent where they are missing or null.
fn read_metadata(alloc: Global, value: Option<&Value>) -> Result<Option<ExtMetadata>, DTypeError>
    ensures { IsFoundAs (λ m. m) result
        (metadata_found (option_map (λ v. view v.now) value.entry)) }
{
    match value {
        None | Some(Value::Null) => Ok(None),
        Some(value) => {
            let bytes = read_bytes(alloc, items(value)?)?;
            Ok(Some(ExtMetadata::from_slice(alloc, &bytes)?))
        }
    }
}

/// The extension type of these parts.
fn extension_type(
    alloc: Global,
    id: &str,
    storage: DType,
    metadata: Option<ExtMetadata>,
) -> Result<DType, DTypeError>
    requires { is_extension (term_of storage) ≡ false }
    ensures term { IfOk result (λ t. term_of t ≡ extension id.now (term_of storage) metadata) }
    ensures memory { IsOkUnless result DTypeError.OutOfMemory }
{
    let id = ExtID::from_text(alloc, id)?;
    let ext = ExtDType::new(alloc, id, storage, metadata)?;
    Ok(DType::Extension(Rc::new(alloc, ext)?))
}

#[cycle(reading)]
#[tactic(auto, unfolding(crate::specs::Found::structure_found))]
fn read_struct(alloc: Global, content: &Value, levels: usize) -> Result<DType, DTypeError>
    ensures { IsFoundAs term_of result (structure_found (type_in levels) (view content.now)) }
{
    let (fields, nullable) = pair(content)?;
    let names = member(fields, "names")?;
    let dtypes = member(fields, "dtypes")?;
    let nullability = flag(nullable)?;
    let names = read_names(alloc, items(names)?)?;
    let dtypes = read_types(alloc, items(dtypes)?, levels)?;
    if names.len() != dtypes.len() {
        return Err(DTypeError::Malformed);
    }
    let fields = named_fields(alloc, names, dtypes)?;
    Ok(DType::Struct(fields, nullability))
}

/// The types of fields, one after the other, of so many levels at most.
#[cycle(reading)]
fn read_types(alloc: Global, items: &[Value], levels: usize) -> Result<Vec<FieldDType>, DTypeError>
    ensures { IsFoundAs (λ v. v.items) result
        (each_found (owned_found (type_in levels)) (items_view items.now)) }
{
    let mut dtypes = Vec::new(alloc);
    for item in items {
        match read_owned(alloc, item, levels) {
            Ok(dtype) => dtypes.push(FieldDType::from_dtype(dtype))?,
            Err(error) => return Err(error),
        }
    }
    Ok(dtypes)
}

/// The type of a field, of so many levels at most.
#[cycle(reading)]
#[tactic(auto, unfolding(crate::specs::Found::owned_found))]
fn read_owned(alloc: Global, value: &Value, levels: usize) -> Result<DType, DTypeError>
    ensures { IsFoundAs term_of result (owned_found (type_in levels) (view value.now)) }
{
    let inner = member(value, "inner")?;
    match inner.as_object() {
        Some(members) => match only_member(members) {
            Some(("Owned", part)) => read_type(alloc, part, levels),
            _ => Err(DTypeError::Malformed),
        },
        None => Err(DTypeError::Malformed),
    }
}

/// The fields of these names and types.
fn named_fields(
    alloc: Global,
    names: Vec<FieldName>,
    dtypes: Vec<FieldDType>,
) -> Result<StructFields, DTypeError>
    requires { length names.items ≡ length dtypes.items }
    ensures fields { IfOk result (λ s. s ≡ fields_from names.items dtypes.items) }
    ensures memory { IsOkUnless result DTypeError.OutOfMemory }
{
    let names = FieldNames::from_names(alloc, names)?;
    StructFields::from_fields(alloc, names, dtypes)
}
