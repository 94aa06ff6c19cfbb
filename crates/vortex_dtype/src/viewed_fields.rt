//! Fields of a struct that is left in a buffer.

ghost use Rattle.std.specs.Prelude.{◌≡◌, ℕ, List, length, ok_or, IfOk, IsOkUnless};
ghost use Rattle.std.specs.HashMap.{get_by};
ghost use Rattle.std.specs.Str.{bytes_eq};
ghost use Rattle.vortex_terms.specs.StructFields.{projected};
ghost use Rattle.vortex_terms.specs.Types.{field_named, fields_from, place_of};
ghost use Rattle.vortex_schema.specs.Views.{fields_of};
ghost use Rattle.vortex_types.specs.Answers.{Answers};
ghost use Rattle.vortex_types.specs.DTypes.{term_of};
ghost use Rattle.vortex_dtype.specs.View.{view_term};
ghost use Rattle.vortex_dtype.specs.ViewFields.{extracted_field, extracted_in, projected_names};
ghost use Rattle.vortex_dtype.specs.ViewFields.{projected_type, resolved_field, resolved_in};
ghost use Rattle.vortex_dtype.specs.ViewFields.{selected_names};

use crate::view::DTypeView;
use std::alloc::Global;
use std::collections::HashMap;
use vortex_names::{DTypeError, Field, FieldName, FieldNames, Nullability};
use vortex_schema::{FieldsAt, TypeNode};
use vortex_types::{DType, FieldDType, StructFields, read_type};

/// The index of the first field of the selected name.
pub fn resolve_field(view: &DTypeView, field: &Field) -> Result<usize, DTypeError>
    ensures { result ≡ resolved_field (view_term view.now) field.now }
{
    match view.type_at().node() {
        TypeNode::Struct(fields, _) => resolve_in(&fields, field),
        _ => Err(DTypeError::NotAStruct),
    }
}

/// The type of the first field of the selected name.
pub fn extract_field(alloc: Global, view: &DTypeView, field: &Field) -> Result<DType, DTypeError>
    ensures { Answers term_of result (extracted_field (view_term view.now) field.now) }
{
    match view.type_at().node() {
        TypeNode::Struct(fields, _) => extract_in(alloc, &fields, field),
        _ => Err(DTypeError::NotAStruct),
    }
}

/// The struct of the first fields of the selected names alone, in the order asked. It is as
/// nullable as the struct in the buffer.
pub fn project_and_deserialize(
    alloc: Global,
    view: &DTypeView,
    projection: &[Field],
) -> Result<DType, DTypeError>
    ensures { Answers term_of result (projected_type (view_term view.now) projection.now) }
{
    match view.type_at().node() {
        TypeNode::Struct(fields, n) => {
            let fields = project_in(alloc, &fields, projection)?;
            Ok(DType::Struct(fields, Nullability::from(n)))
        }
        _ => Err(DTypeError::NotAStruct),
    }
}

/// The index of the first field of this name.
fn place_of(fields: &FieldsAt<'_>, name: &FieldName) -> Option<usize>
    ensures { result ≡ place_of (fields_of fields.now) name.now }
{
    for i in 0..fields.len() {
        if name.eq_str(fields.name(i)) {
            return Some(i);
        }
    }
    None
}

/// The index of the first field of the selected name.
fn resolve_in(fields: &FieldsAt<'_>, field: &Field) -> Result<usize, DTypeError>
    ensures { result ≡ resolved_in (fields_of fields.now) field.now }
{
    match field {
        Field::Name(name) => place_of(fields, name).ok_or(DTypeError::FieldNotFound),
        Field::ElementType => Err(DTypeError::NotAName),
    }
}

/// The type of the first field of this name.
#[tactic(auto, using(crate::proofs::Selected::named_at, crate::proofs::Selected::not_named))]
fn named_type(alloc: Global, fields: &FieldsAt<'_>, name: &FieldName) -> Result<DType, DTypeError>
    ensures { let found = field_named (fields_of fields.now) name.now in
        Answers term_of result (ok_or found DTypeError.FieldNotFound) }
{
    match place_of(fields, name) {
        Some(i) => read_type(alloc, fields.dtype(i)),
        None => Err(DTypeError::FieldNotFound),
    }
}

/// The type of the first field of the selected name.
fn extract_in(alloc: Global, fields: &FieldsAt<'_>, field: &Field) -> Result<DType, DTypeError>
    ensures { Answers term_of result (extracted_in (fields_of fields.now) field.now) }
{
    match field {
        Field::Name(name) => named_type(alloc, fields, name),
        Field::ElementType => Err(DTypeError::NotAName),
    }
}

/// The selected names, where all selectors are names.
fn selected_names(alloc: Global, selectors: &[Field]) -> Result<Vec<FieldName>, DTypeError>
    ensures { let names = selected_names selectors.now in
        Answers (λ v. v.items) result (ok_or names DTypeError.NotAName) }
{
    let mut names = Vec::new(alloc);
    for selector in selectors {
        match selector {
            Field::Name(name) => names.push(name.try_clone(alloc)?)?,
            Field::ElementType => return Err(DTypeError::NotAName),
        }
    }
    Ok(names)
}

/// The first place of each name.
fn first_places<'a>(
    alloc: Global,
    fields: &FieldsAt<'a>,
) -> Result<HashMap<&'a str, usize>, DTypeError>
    ensures places { IfOk result (λ m.
        (q : List ℕ) → get_by (λ k. bytes_eq q k.now) m ≡ place_of (fields_of fields.now) q) }
    ensures memory { IsOkUnless result DTypeError.OutOfMemory }
{
    let mut places = HashMap::new(alloc);
    let mut i = fields.len();
    while i > 0 {
        i -= 1;
        places.insert(fields.name(i), i)?;
    }
    Ok(places)
}

/// The place of a name.
fn placed(places: &HashMap<&str, usize>, name: &FieldName) -> Option<usize>
    ensures { result ≡ get_by (λ k. bytes_eq name.now k.now) places.now }
{
    match places.get(name.as_str()) {
        Some(place) => Some(*place),
        None => None,
    }
}

/// The type of the field at the place of a name.
fn placed_type(
    alloc: Global,
    fields: &FieldsAt<'_>,
    places: &HashMap<&str, usize>,
    name: &FieldName,
) -> Result<DType, DTypeError>
    requires { (q : List ℕ) →
        get_by (λ k. bytes_eq q k.now) places.now ≡ place_of (fields_of fields.now) q }
    ensures { let found = field_named (fields_of fields.now) name.now in
        Answers term_of result (ok_or found DTypeError.FieldNotFound) }
{
    match placed(places, name) {
        Some(i) => read_type(alloc, fields.dtype(i)),
        None => Err(DTypeError::FieldNotFound),
    }
}

/// The first fields of these names.
fn named_fields(
    alloc: Global,
    fields: &FieldsAt<'_>,
    names: Vec<FieldName>,
) -> Result<StructFields, DTypeError>
    ensures { let found = projected (fields_of fields.now) names.items in
        Answers (λ s. s) result (ok_or found DTypeError.FieldNotFound) }
{
    let places = first_places(alloc, fields)?;
    let dtypes = named_types(alloc, fields, &places, &names)?;
    let names = FieldNames::from_names(alloc, names)?;
    StructFields::from_fields(alloc, names, dtypes)
}

/// The types of the first fields of these names.
fn named_types(
    alloc: Global,
    fields: &FieldsAt<'_>,
    places: &HashMap<&str, usize>,
    names: &[FieldName],
) -> Result<Vec<FieldDType>, DTypeError>
    requires { (q : List ℕ) →
        get_by (λ k. bytes_eq q k.now) places.now ≡ place_of (fields_of fields.now) q }
    ensures fields { Answers (λ v. fields_from names.now v.items) result
        (ok_or (projected (fields_of fields.now) names.now) DTypeError.FieldNotFound) }
    ensures count { IfOk result (λ v. length names.now ≡ length v.items) }
{
    let mut dtypes = Vec::new(alloc);
    for name in names {
        match placed_type(alloc, fields, places, name) {
            Ok(dtype) => dtypes.push(FieldDType::from_dtype(dtype))?,
            Err(error) => return Err(error),
        }
    }
    Ok(dtypes)
}

/// The first fields of the selected names.
fn project_in(
    alloc: Global,
    fields: &FieldsAt<'_>,
    projection: &[Field],
) -> Result<StructFields, DTypeError>
    ensures { let names = selected_names projection.now in
        Answers (λ s. s) result (projected_names (fields_of fields.now) names) }
{
    let names = selected_names(alloc, projection)?;
    named_fields(alloc, fields, names)
}
