//! Steps of paths and paths as JSON values, and read from them.

ghost use Rattle.std.specs.Prelude.{◌≡◌, IfOk, IsOkUnless};
ghost use Rattle.serde_json.specs.View.{items_view, view};
ghost use Rattle.vortex_types.specs.Standing.{IsFoundAs};
ghost use Rattle.vortex_dtype.specs.Paths.{part_of, parts_of};
ghost use Rattle.vortex_json.specs.Answers.{IsFound};
ghost use Rattle.vortex_json.specs.Found.{each_found, element_found, name_found, part_found};
ghost use Rattle.vortex_json.specs.Found.{path_found};
ghost use Rattle.vortex_json.specs.Written.{each_json, part_json, path_json};

use crate::parts::{items, only_member, text};
use serde_json::{Value, json};
use std::alloc::{AllocError, Global};
use vortex_dtype::FieldPath;
use vortex_names::{DTypeError, Field};
use vortex_time::TemporalError;

/// The JSON of a step.
pub fn field_to_json(alloc: Global, field: &Field) -> Result<Value, TemporalError>
    ensures json { IfOk result (λ v. view v ≡ part_json (part_of field.now)) }
    ensures memory { IsOkUnless result TemporalError.OutOfMemory }
{
    Ok(part_value(alloc, field)?)
}

/// The step that a value stands for. BadJson where it stands for none.
pub fn field_from_json(alloc: Global, value: &Value) -> Result<Field, TemporalError>
    ensures { IsFound part_of result (part_found (view value.now)) }
{
    match read_part(alloc, value) {
        Ok(field) => Ok(field),
        Err(DTypeError::OutOfMemory) => Err(TemporalError::OutOfMemory),
        Err(_) => Err(TemporalError::BadJson),
    }
}

/// The JSON of a path.
pub fn path_to_json(alloc: Global, path: &FieldPath) -> Result<Value, TemporalError>
    ensures json { IfOk result (λ v. view v ≡ path_json path.now) }
    ensures memory { IsOkUnless result TemporalError.OutOfMemory }
{
    Ok(Value::Array(part_values(alloc, path.parts())?))
}

/// The path that a value stands for. BadJson where it stands for none.
///
/// The time is linear in the value.
pub fn path_from_json(alloc: Global, value: &Value) -> Result<FieldPath, TemporalError>
    ensures { IsFound (λ path. path) result (path_found (view value.now)) }
{
    match read_path(alloc, value) {
        Ok(path) => Ok(path),
        Err(DTypeError::OutOfMemory) => Err(TemporalError::OutOfMemory),
        Err(_) => Err(TemporalError::BadJson),
    }
}

fn part_value(alloc: Global, field: &Field) -> Result<Value, AllocError>
    ensures { IfOk result (λ v. view v ≡ part_json (part_of field.now)) }
{
    match field {
        Field::Name(name) => json!(in alloc; {"Name": (name.as_str())}),
        Field::ElementType => Value::try_from_str(alloc, "ElementType"),
    }
}

fn part_values(alloc: Global, fields: &[Field]) -> Result<Vec<Value>, AllocError>
    ensures { IfOk result (λ v. items_view v.items ≡ each_json part_json (parts_of fields.now)) }
{
    let mut values = Vec::new(alloc);
    for field in fields {
        values.push(part_value(alloc, field)?)?;
    }
    Ok(values)
}

fn read_part(alloc: Global, value: &Value) -> Result<Field, DTypeError>
    ensures { IsFoundAs part_of result (part_found (view value.now)) }
{
    match value {
        Value::String(text) => read_element(text.as_str()),
        Value::Object(members) => match only_member(members) {
            Some((name, value)) => read_name(alloc, name, value),
            None => Err(DTypeError::Malformed),
        },
        Value::Null | Value::Bool(_) | Value::Number(_) | Value::Array(_) => {
            Err(DTypeError::Malformed)
        }
    }
}

fn read_element(text: &str) -> Result<Field, DTypeError>
    ensures { IsFoundAs part_of result (element_found text.now) }
{
    if text == "ElementType" {
        Ok(Field::ElementType)
    } else {
        Err(DTypeError::Malformed)
    }
}

#[tactic(auto, unfolding(crate::specs::Found::name_found))]
fn read_name(alloc: Global, kind: &str, value: &Value) -> Result<Field, DTypeError>
    ensures { IsFoundAs part_of result (name_found kind.now (view value.now)) }
{
    let name = text(value)?;
    if kind == "Name" {
        Field::from_text(alloc, name)
    } else {
        Err(DTypeError::Malformed)
    }
}

fn read_path(alloc: Global, value: &Value) -> Result<FieldPath, DTypeError>
    ensures { IsFoundAs (λ path. path) result (path_found (view value.now)) }
{
    Ok(FieldPath::from_fields(read_parts(alloc, items(value)?)?))
}

fn read_parts(alloc: Global, items: &[Value]) -> Result<Vec<Field>, DTypeError>
    ensures { IsFoundAs (λ v. parts_of v.items) result (each_found part_found (items_view items.now)) }
{
    let mut fields = Vec::new(alloc);
    for item in items {
        match read_part(alloc, item) {
            Ok(field) => fields.push(field)?,
            Err(error) => return Err(error),
        }
    }
    Ok(fields)
}
