//! Fields that are made from a struct's fields.

ghost use Rattle.std.specs.Prelude.{◌≡◌, ◌<◌, ◌+◌, ◌++◌, take, drop, ok_or, slice_get};
ghost use Rattle.std.specs.Prelude.{option_and_then, option_copied, length, IfOk, IsOkUnless};
ghost use Rattle.std.specs.HashMap.{get_by};
ghost use Rattle.std.specs.Str.{bytes_eq};
ghost use Rattle.vortex_terms.specs.Types.{fields_from};
ghost use Rattle.vortex_terms.specs.StructFields.{projected, without_field, disjoint_merged};
ghost use Rattle.vortex_types.specs.Answers.{Answers};

use crate::field_dtype::FieldDType;
use crate::name_index::{first_places, repeats};
use crate::struct_fields::StructFields;
use std::alloc::Global;
use std::collections::HashMap;
use vortex_names::{DTypeError, FieldName, FieldNames};

impl StructFields {
    /// The first field of each of these names, in their order.
    pub fn project(
        &self,
        alloc: Global,
        projection: &[FieldName],
    ) -> Result<StructFields, DTypeError>
        ensures { let wanted = ok_or (projected self.now projection.now) DTypeError.FieldNotFound in
            Answers (λ s. s) result wanted }
    {
        let places = first_places(alloc, self.names().as_slice())?;
        let kinds = self.kinds();
        let mut names = Vec::new(alloc);
        let mut dtypes = Vec::new(alloc);
        for name in projection {
            match field_at_name(&places, kinds, name) {
                Some(field) => {
                    names.push(name.try_clone(alloc)?)?;
                    dtypes.push(field.try_clone(alloc)?)?;
                }
                None => return Err(DTypeError::FieldNotFound),
            }
        }
        made(alloc, names, dtypes)
    }

    /// The fields without the one at an index.
    pub fn without_field(&self, alloc: Global, index: usize) -> Result<StructFields, DTypeError>
        ensures { let wanted = ok_or (without_field self.now index) DTypeError.IndexOutOfBounds in
            Answers (λ s. s) result wanted }
    {
        if index >= self.nfields() {
            return Err(DTypeError::IndexOutOfBounds);
        }
        let names = other_names(alloc, self.names().as_slice(), index)?;
        let dtypes = other_fields(alloc, self.kinds(), index)?;
        made(alloc, names, dtypes)
    }

    /// The fields, and then those of `other`, where no name stands twice.
    pub fn disjoint_merge(
        &self,
        alloc: Global,
        other: &StructFields,
    ) -> Result<StructFields, DTypeError>
        ensures { let merged = disjoint_merged self.now other.now in
            Answers (λ s. s) result (ok_or merged DTypeError.DuplicateName) }
    {
        let names = joined_names(alloc, self.names().as_slice(), other.names().as_slice())?;
        if repeats(alloc, &names)? {
            return Err(DTypeError::DuplicateName);
        }
        let dtypes = joined_fields(alloc, self.kinds(), other.kinds())?;
        made(alloc, names, dtypes)
    }
}

/// The fields of these names and types.
fn made(
    alloc: Global,
    names: Vec<FieldName>,
    dtypes: Vec<FieldDType>,
) -> Result<StructFields, DTypeError>
    requires { length names.items ≡ length dtypes.items }
    ensures fields { IfOk result (λ s. s ≡ fields_from names.items dtypes.items) }
    ensures memory { IsOkUnless result DTypeError.OutOfMemory }
{
    let names = FieldNames::from_names(alloc, names)?;
    StructFields::from_fields(alloc, names, dtypes)
}

/// The field at the place of a name.
fn field_at_name<'a>(
    places: &HashMap<&str, usize>,
    fields: &'a [FieldDType],
    name: &FieldName,
) -> Option<&'a FieldDType>
    ensures { let place = get_by (λ k. bytes_eq name.now k.now) places.now in
        option_copied result ≡ option_and_then (slice_get fields.now) place }
{
    match places.get(name.as_str()) {
        Some(place) => fields.get(*place),
        None => None,
    }
}

/// Equal names, without the one at an index.
fn other_names(
    alloc: Global,
    names: &[FieldName],
    index: usize,
) -> Result<Vec<FieldName>, DTypeError>
    requires { index < length names.now }
    ensures others { IfOk result (λ v.
        v.items ≡ take index names.now ++ drop (index + 1) names.now) }
    ensures memory { IsOkUnless result DTypeError.OutOfMemory }
{
    joined_names(alloc, &names[..index], &names[index + 1..])
}

/// Fields of the same types, without the one at an index.
fn other_fields(
    alloc: Global,
    fields: &[FieldDType],
    index: usize,
) -> Result<Vec<FieldDType>, DTypeError>
    requires { index < length fields.now }
    ensures others { IfOk result (λ v.
        v.items ≡ take index fields.now ++ drop (index + 1) fields.now) }
    ensures memory { IsOkUnless result DTypeError.OutOfMemory }
{
    joined_fields(alloc, &fields[..index], &fields[index + 1..])
}

/// Equal names, one list behind the other.
fn joined_names(
    alloc: Global,
    names: &[FieldName],
    others: &[FieldName],
) -> Result<Vec<FieldName>, DTypeError>
    ensures joined { IfOk result (λ v. v.items ≡ names.now ++ others.now) }
    ensures memory { IsOkUnless result DTypeError.OutOfMemory }
{
    let mut joined = Vec::new(alloc);
    for name in names {
        joined.push(name.try_clone(alloc)?)?;
    }
    for name in others {
        joined.push(name.try_clone(alloc)?)?;
    }
    Ok(joined)
}

/// Fields of the same types, one list behind the other.
fn joined_fields(
    alloc: Global,
    fields: &[FieldDType],
    others: &[FieldDType],
) -> Result<Vec<FieldDType>, DTypeError>
    ensures joined { IfOk result (λ v. v.items ≡ fields.now ++ others.now) }
    ensures memory { IsOkUnless result DTypeError.OutOfMemory }
{
    let mut joined = Vec::new(alloc);
    for field in fields {
        joined.push(field.try_clone(alloc)?)?;
    }
    for field in others {
        joined.push(field.try_clone(alloc)?)?;
    }
    Ok(joined)
}
