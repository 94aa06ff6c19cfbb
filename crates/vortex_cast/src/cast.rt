//! Values cast from one type to another.

ghost use Rattle.std.specs.Prelude.{◌≡◌, Ok, Err};
ghost use Rattle.std.specs.Option.{IsSome};
ghost use Rattle.vortex_terms.specs.Row.{list_row};
ghost use Rattle.vortex_terms.specs.Types.{storage_of, field_count};
ghost use Rattle.vortex_types.specs.TypeRefs.{ref_term, fields_term};
ghost use Rattle.vortex_scalar_value.specs.Value.{values_from};
ghost use Rattle.vortex_value_rows.specs.RowOf.{row_of, row_under};
ghost use Rattle.vortex_value_rows.specs.Inside.{inside_term, in_rows, every, each};
ghost use Rattle.vortex_value_rows.specs.HeldRow.{rows_under};
ghost use Rattle.vortex_cast.specs.Cast.{cast_of, struct_cast, fields_cast, list_cast, listed};
ghost use Rattle.vortex_cast.specs.Answers.{IsCast};
ghost use Rattle.vortex_cast.specs.inner.Steps.{stored_cast, in_row, ArePaired, in_cast};

use crate::leaf::{cast_decimal, cast_null, cast_whole, share};
use std::alloc::Global;
use vortex_scalar_value::{ScalarError, ScalarValue};
use vortex_types::{FieldsRef, Shape, TypeRef};
use vortex_value_rows::{Inside, RowRef, part_at, row_ref, value_at};

/// The value of a row of the type `from` as one of the type `to`. Fields of structs go by position,
/// and an extension is its storage.
///
/// Refusals in order: `CastNull` for null under a type that is not nullable, `CastKind` for kinds
/// that do not go together, `CastRange` for a number, `CastLength` for a list, `CastFields` for how
/// many fields a struct has, then the first refusal inside.
#[cycle(casting)]
pub fn cast_value(
    alloc: Global,
    from: TypeRef<'_>,
    value: &ScalarValue,
    to: TypeRef<'_>,
) -> Result<ScalarValue, ScalarError>
    requires { IsSome (row_of (ref_term from) value.now) }
    ensures { let t = ref_term from.entry in let u = ref_term to.entry in
        IsCast (row_of u) result (cast_of t (row_under t value.now) u) }
{
    if value.is_null() {
        cast_null(to)
    } else {
        cast_stored(alloc, from, value, storage(to))
    }
}

/// The same of a value that is not null, where `to` is no extension.
#[cycle(casting)]
fn cast_stored(
    alloc: Global,
    from: TypeRef<'_>,
    value: &ScalarValue,
    to: TypeRef<'_>,
) -> Result<ScalarValue, ScalarError>
    requires { IsSome (row_of (ref_term from) value.now) }
    ensures { let t = ref_term from.entry in let u = ref_term to.entry in
        IsCast (row_of u) result (stored_cast t (row_under t value.now) u) }
{
    let row = row_ref(from, value);
    match from.shape() {
        Shape::Null => Err(ScalarError::CastKind),
        Shape::Bool(_) | Shape::Utf8(_) | Shape::Binary(_) => {
            share(alloc, value, from.kind() == to.kind())
        }
        Shape::Primitive(_, _) => match row {
            RowRef::Whole(number) => cast_whole(number, to),
            _ => Err(ScalarError::CastKind),
        },
        Shape::Decimal(dtype, _) => match row {
            RowRef::Whole(number) => cast_decimal(alloc, value, number, dtype.scale(), to),
            _ => Err(ScalarError::CastKind),
        },
        Shape::Struct(fields, _) => match row {
            RowRef::List(values) => cast_struct(alloc, fields, values, to),
            _ => Err(ScalarError::CastKind),
        },
        Shape::List(element, _) | Shape::FixedSizeList(element, _, _) => match row {
            RowRef::List(values) => cast_list(alloc, element, values, to),
            _ => Err(ScalarError::CastKind),
        },
        Shape::Extension(_, storage, _) => {
            if storage.eq_ignore_nullability(to) {
                cast_value(alloc, storage, value, to)
            } else {
                Err(ScalarError::CastKind)
            }
        }
    }
}

/// The values of a struct's fields as those of another struct.
#[cycle(casting)]
fn cast_struct(
    alloc: Global,
    fields: FieldsRef<'_>,
    values: &[ScalarValue],
    to: TypeRef<'_>,
) -> Result<ScalarValue, ScalarError>
    requires { IsSome (in_rows (each (fields_term fields)) (values_from values.now)) }
    ensures { let fs = fields_term fields.entry in let u = ref_term to.entry in
        IsCast (row_of u) result (struct_cast (field_count fs) (fields_cast fs)
        (list_row (rows_under (each fs) (values_from values.now))) u) }
{
    match to.shape() {
        Shape::Struct(others, _) => {
            if fields.len() == others.len() {
                cast_inside(
                    alloc,
                    Inside::Fields(fields),
                    values,
                    Inside::Fields(others),
                )
            } else {
                Err(ScalarError::CastFields)
            }
        }
        _ => Err(ScalarError::CastKind),
    }
}

/// The elements of a list as those of another list.
#[cycle(casting)]
fn cast_list(
    alloc: Global,
    element: TypeRef<'_>,
    values: &[ScalarValue],
    to: TypeRef<'_>,
) -> Result<ScalarValue, ScalarError>
    requires { IsSome (in_rows (every (ref_term element)) (values_from values.now)) }
    ensures { let t = ref_term element.entry in let u = ref_term to.entry in
        IsCast (row_of u) result (list_cast (cast_of t)
        (list_row (rows_under (every t) (values_from values.now))) u) }
{
    match to.shape() {
        Shape::List(other, _) => {
            cast_inside(alloc, Inside::Every(element), values, Inside::Every(other))
        }
        Shape::FixedSizeList(other, size, _) => {
            if values.len() == size as usize {
                cast_inside(alloc, Inside::Every(element), values, Inside::Every(other))
            } else {
                Err(ScalarError::CastLength)
            }
        }
        _ => Err(ScalarError::CastKind),
    }
}

/// The values inside a list or a struct as those of another one.
#[cycle(casting)]
fn cast_inside(
    alloc: Global,
    from: Inside<'_>,
    values: &[ScalarValue],
    to: Inside<'_>,
) -> Result<ScalarValue, ScalarError>
    requires rows { IsSome (in_rows (inside_term from) (values_from values.now)) }
    requires pair { ArePaired (inside_term from) (inside_term to) }
    ensures { let c = inside_term from.entry in let d = inside_term to.entry in
        IsCast (in_row d) result
        (listed (in_cast c d (rows_under c (values_from values.now)))) }
{
    let mut cast = Vec::with_capacity(alloc, values.len())?;
    for i in 0..values.len() {
        match cast_value(alloc, part_at(from, i), value_at(values, i), part_at(to, i)) {
            Ok(value) => cast.push(value)?,
            Err(e) => return Err(e),
        }
    }
    ScalarValue::from_list(alloc, cast)
}

/// The type in which the rows are stored: that of an extension, and else the type itself.
fn storage<'a>(of: TypeRef<'a>) -> TypeRef<'a>
    ensures { ref_term result ≡ storage_of (ref_term of.entry) }
{
    match of.shape() {
        Shape::Extension(_, storage, _) => storage,
        _ => of,
    }
}
