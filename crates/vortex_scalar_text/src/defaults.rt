//! The values of the default rows of types.

ghost use Rattle.std.specs.Prelude.{◌≡◌, ◌<◌, Some, replicate, IfOk, IsOkUnless};
ghost use Rattle.std.specs.Option.{option_map, IsSome};
ghost use Rattle.vortex_terms.specs.Default.{default_row};
ghost use Rattle.vortex_terms.specs.Types.{field_at};
ghost use Rattle.vortex_types.specs.TypeRefs.{fields_term, ref_term};
ghost use Rattle.vortex_scalar_value.specs.Value.{list_value, values_from};
ghost use Rattle.vortex_value_rows.specs.RowOf.{fitting_row};
ghost use Rattle.vortex_scalar_text.specs.inner.Defaults.{default_value, default_values};

use std::alloc::Global;
use vortex_scalar_value::{ScalarError, ScalarValue};
use vortex_types::{FieldsRef, Shape, TypeRef};
use vortex_value::{DecimalValue, PValue};

/// A value of the default row of the type. The defaults in a fixed-size list are one, shared.
#[tactic(auto, using(crate::proofs::DefaultRows::default_fits))]
pub fn default_value(alloc: Global, of: TypeRef<'_>) -> Result<ScalarValue, ScalarError>
    ensures row { let t = ref_term of.entry in
        IfOk result (λ v. fitting_row t v ≡ Some (default_row t)) }
    ensures memory { IsOkUnless result ScalarError.OutOfMemory }
{
    default_of(alloc, of)
}

/// The default of a type.
#[cycle(defaults)]
fn default_of(alloc: Global, of: TypeRef<'_>) -> Result<ScalarValue, ScalarError>
    ensures value { IfOk result (λ v. v ≡ default_value (ref_term of.entry)) }
    ensures memory { IsOkUnless result ScalarError.OutOfMemory }
{
    if bool::from(of.nullability()) {
        return Ok(ScalarValue::null());
    }
    match of.shape() {
        Shape::Null => Ok(ScalarValue::null()),
        Shape::Bool(_) => Ok(ScalarValue::from_bool(false)),
        Shape::Primitive(ptype, _) => Ok(ScalarValue::from_pvalue(PValue::zero(ptype))),
        Shape::Decimal(_, _) => Ok(ScalarValue::from_decimal(DecimalValue::I32(0))),
        Shape::Utf8(_) => ScalarValue::from_text(alloc, ""),
        Shape::Binary(_) => ScalarValue::from_bytes(alloc, &[]),
        Shape::Struct(fields, _) => default_of_fields(alloc, fields),
        Shape::List(_, _) => ScalarValue::from_list(alloc, Vec::new(alloc)),
        Shape::Extension(_, storage, _) => default_of(alloc, storage),
        Shape::FixedSizeList(element, size, _) => {
            let value = default_of(alloc, element)?;
            copies_of(alloc, &value, size)
        }
    }
}

/// The default of a struct.
#[cycle(defaults)]
fn default_of_fields(alloc: Global, fields: FieldsRef<'_>) -> Result<ScalarValue, ScalarError>
    ensures value { let values = values_from (default_values (fields_term fields.entry)) in
        IfOk result (λ v. v ≡ list_value values) }
    ensures memory { IsOkUnless result ScalarError.OutOfMemory }
{
    let mut values = Vec::with_capacity(alloc, fields.len())?;
    for i in 0..fields.len() {
        values.push(default_of_field(alloc, fields, i)?)?;
    }
    ScalarValue::from_list(alloc, values)
}

/// The default of the field at an index.
#[cycle(defaults)]
fn default_of_field(
    alloc: Global,
    fields: FieldsRef<'_>,
    i: usize,
) -> Result<ScalarValue, ScalarError>
    requires { IsSome (field_at (fields_term fields) i) }
    ensures value { let part = field_at (fields_term fields.entry) i in
        IfOk result (λ v. Some v ≡ option_map default_value part) }
    ensures memory { IsOkUnless result ScalarError.OutOfMemory }
{
    match fields.part(i) {
        Some(of) => default_of(alloc, of),
        None => unreachable!(),
    }
}

/// A list of one value as often as the size says, shared.
fn copies_of(alloc: Global, value: &ScalarValue, size: u32) -> Result<ScalarValue, ScalarError>
    ensures value { IfOk result (λ v. v ≡ list_value (values_from (replicate size value.now))) }
    ensures memory { IsOkUnless result ScalarError.OutOfMemory }
{
    let mut values = Vec::with_capacity(alloc, size as usize)?;
    for _ in 0..size {
        values.push(value.try_clone(alloc)?)?;
    }
    ScalarValue::from_list(alloc, values)
}
