//! Types written as JSON values.

ghost use Rattle.std.specs.Prelude.{◌≡◌, codes, IfOk};
ghost use Rattle.std.specs.Option.{option_copied};
ghost use Rattle.serde_json.specs.View.{items_view, view};
ghost use Rattle.vortex_names.specs.Nullable.{is_nullable};
ghost use Rattle.vortex_number.specs.WholeKind.{whole_kind};
ghost use Rattle.vortex_terms.specs.Types.{names_of};
ghost use Rattle.vortex_types.specs.DTypes.{term_of};
ghost use Rattle.vortex_types.specs.TypeRefs.{fields_term, ref_term};
ghost use Rattle.vortex_json.specs.Answers.{IsWritten};
ghost use Rattle.vortex_json.specs.Written.{count_json, digits_json, each_json, extension_json};
ghost use Rattle.vortex_json.specs.Written.{fields_json, flag_json, json_of, kind_json};
ghost use Rattle.vortex_json.specs.Written.{metadata_json, only, owned_json, text_json, three};
ghost use Rattle.vortex_json.specs.Written.{two, types_json};

use crate::kinds::kind_value;
use crate::room::{field_name, field_type, is_within};
use serde_json::{Value, json};
use std::alloc::{AllocError, Global};
use vortex_names::{DecimalDType, Nullability};
use vortex_number::PType;
use vortex_time::TemporalError;
use vortex_types::{DType, FieldsRef, Shape, TypeRef};

/// The JSON of a type. BadJson where the type is outside the limits.
#[tactic(auto, using(crate::proofs::Found::bounded_found, crate::proofs::Found::outside))]
pub fn dtype_to_json(alloc: Global, dtype: &DType) -> Result<Value, TemporalError>
    ensures { IsWritten result (term_of dtype.now) }
{
    dtype.law();
    let of = dtype.type_ref();
    if !is_within(of) {
        return Err(TemporalError::BadJson);
    }
    match type_value(alloc, of) {
        Ok(value) => Ok(value),
        Err(_) => Err(TemporalError::OutOfMemory),
    }
}

/// The JSON of a type, whatever its size.
#[cycle(writing)]
fn type_value(alloc: Global, of: TypeRef<'_>) -> Result<Value, AllocError>
    ensures { IfOk result (λ v. view v ≡ json_of (ref_term of.entry)) }
{
    match of.shape() {
        Shape::Null => Value::try_from_str(alloc, "Null"),
        Shape::Bool(n) => flagged(alloc, "Bool", n),
        Shape::Primitive(ptype, n) => primitive_value(alloc, ptype, n),
        Shape::Decimal(decimal, n) => decimal_value(alloc, decimal, n),
        Shape::Utf8(n) => flagged(alloc, "Utf8", n),
        Shape::Binary(n) => flagged(alloc, "Binary", n),
        Shape::Struct(fields, n) => {
            let dtypes = type_values(alloc, fields)?;
            struct_value(alloc, dtypes, name_values(alloc, fields)?, n)
        }
        Shape::List(element, n) => list_value(alloc, type_value(alloc, element)?, n),
        Shape::Extension(id, storage, metadata) => {
            let storage = type_value(alloc, storage)?;
            extension_value(alloc, id, metadata_value(alloc, metadata)?, storage)
        }
        Shape::FixedSizeList(element, size, n) => {
            fixed_value(alloc, type_value(alloc, element)?, size, n)
        }
    }
}

/// The types of fields, in order.
#[cycle(writing)]
fn type_values(alloc: Global, fields: FieldsRef<'_>) -> Result<Vec<Value>, AllocError>
    ensures { IfOk result (λ v. items_view v.items ≡ types_json (fields_term fields.entry)) }
{
    let mut dtypes = Vec::new(alloc);
    for i in 0..fields.len() {
        let dtype = type_value(alloc, field_type(fields, i))?;
        dtypes.push(owned_value(alloc, dtype)?)?;
    }
    Ok(dtypes)
}

/// The names of fields, in order.
fn name_values(alloc: Global, fields: FieldsRef<'_>) -> Result<Vec<Value>, AllocError>
    ensures { IfOk result (λ v.
        items_view v.items ≡ each_json text_json (names_of (fields_term fields.entry))) }
{
    let mut names = Vec::new(alloc);
    for i in 0..fields.len() {
        names.push(Value::try_from_str(alloc, field_name(fields, i))?)?;
    }
    Ok(names)
}

/// A kind to which only belongs whether rows may be null.
fn flagged(alloc: Global, name: &str, nullability: Nullability) -> Result<Value, AllocError>
    ensures { IfOk result (λ v. view v ≡ only name.now (flag_json (is_nullable nullability))) }
{
    json!(in alloc; {(name): bool::from(nullability)})
}

/// Whole numbers of a kind.
fn primitive_value(
    alloc: Global,
    ptype: PType,
    nullability: Nullability,
) -> Result<Value, AllocError>
    ensures { let both = two (kind_json (whole_kind ptype)) (flag_json (is_nullable nullability)) in
        IfOk result (λ v. view v ≡ only (codes "Primitive") both) }
{
    let kind = kind_value(alloc, ptype)?;
    json!(in alloc; {"Primitive": [kind, bool::from(nullability)]})
}

/// Decimals of a precision and a scale.
fn decimal_value(
    alloc: Global,
    decimal: DecimalDType,
    nullability: Nullability,
) -> Result<Value, AllocError>
    ensures { let digits = digits_json decimal.precision decimal.scale in
        let both = two digits (flag_json (is_nullable nullability)) in
        IfOk result (λ v. view v ≡ only (codes "Decimal") both) }
{
    let digits = digits_value(alloc, decimal.precision(), decimal.scale())?;
    json!(in alloc; {"Decimal": [digits, bool::from(nullability)]})
}

fn digits_value(alloc: Global, precision: u8, scale: i8) -> Result<Value, AllocError>
    ensures { IfOk result (λ v. view v ≡ digits_json precision scale) }
{
    json!(in alloc; {"precision": precision, "scale": scale})
}

/// A struct of fields of these types and names.
fn struct_value(
    alloc: Global,
    dtypes: Vec<Value>,
    names: Vec<Value>,
    nullability: Nullability,
) -> Result<Value, AllocError>
    ensures { let fields = fields_json (items_view dtypes.items) (items_view names.items) in
        IfOk result (λ v.
        view v ≡ only (codes "Struct") (two fields (flag_json (is_nullable nullability)))) }
{
    let fields = fields_value(alloc, dtypes, names)?;
    json!(in alloc; {"Struct": [fields, bool::from(nullability)]})
}

fn fields_value(alloc: Global, dtypes: Vec<Value>, names: Vec<Value>) -> Result<Value, AllocError>
    ensures { IfOk result (λ v.
        view v ≡ fields_json (items_view dtypes.items) (items_view names.items)) }
{
    json!(in alloc; {"dtypes": dtypes, "names": names})
}

/// The type of a field.
fn owned_value(alloc: Global, dtype: Value) -> Result<Value, AllocError>
    ensures { IfOk result (λ v. view v ≡ owned_json (view dtype)) }
{
    json!(in alloc; {"inner": {"Owned": dtype}})
}

/// Lists of elements of this type.
fn list_value(alloc: Global, element: Value, nullability: Nullability) -> Result<Value, AllocError>
    ensures { let both = two (view element) (flag_json (is_nullable nullability)) in
        IfOk result (λ v. view v ≡ only (codes "List") both) }
{
    json!(in alloc; {"List": [element, bool::from(nullability)]})
}

/// Lists of so many elements of this type.
fn fixed_value(
    alloc: Global,
    element: Value,
    size: u32,
    nullability: Nullability,
) -> Result<Value, AllocError>
    ensures { let all = three (view element) (count_json size) (flag_json (is_nullable nullability)) in
        IfOk result (λ v. view v ≡ only (codes "FixedSizeList") all) }
{
    json!(in alloc; {"FixedSizeList": [element, size, bool::from(nullability)]})
}

/// An extension type.
fn extension_value(
    alloc: Global,
    id: &str,
    metadata: Value,
    storage: Value,
) -> Result<Value, AllocError>
    ensures { let parts = extension_json id.now (view metadata) (view storage) in
        IfOk result (λ v. view v ≡ only (codes "Extension") parts) }
{
    let parts = extension_parts(alloc, id, metadata, storage)?;
    json!(in alloc; {"Extension": parts})
}

fn extension_parts(
    alloc: Global,
    id: &str,
    metadata: Value,
    storage: Value,
) -> Result<Value, AllocError>
    ensures { IfOk result (λ v.
        view v ≡ extension_json id.now (view metadata) (view storage)) }
{
    json!(in alloc; {"id": id, "metadata": metadata, "storage_dtype": storage})
}

/// Metadata as a list of numbers, or null where they are absent.
fn metadata_value(alloc: Global, metadata: Option<&[u8]>) -> Result<Value, AllocError>
    ensures { IfOk result (λ v. view v ≡ metadata_json (option_copied metadata.entry)) }
{
    match metadata {
        Some(bytes) => Ok(Value::Array(byte_values(alloc, bytes)?)),
        None => Ok(Value::Null),
    }
}

fn byte_values(alloc: Global, bytes: &[u8]) -> Result<Vec<Value>, AllocError>
    ensures { IfOk result (λ v. items_view v.items ≡ each_json count_json bytes.now) }
{
    let mut values = Vec::new(alloc);
    for byte in bytes {
        values.push(Value::from(*byte))?;
    }
    Ok(values)
}
