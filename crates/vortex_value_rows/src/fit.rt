//! Which values fit a type.

ghost use Rattle.std.specs.Prelude.{◌≡◌, is_some, false};
ghost use Rattle.std.specs.Option.{option_map_or};
ghost use Rattle.vortex_number.specs.WholeKind.{whole_kind};
ghost use Rattle.vortex_names.specs.Nullable.{is_nullable};
ghost use Rattle.vortex_terms.specs.Term.{boolean, primitive, decimal, utf8, binary};
ghost use Rattle.vortex_types.specs.TypeRefs.{ref_term};
ghost use Rattle.vortex_scalar_value.specs.Value.{values_from};
ghost use Rattle.vortex_value_rows.specs.RowOf.{fitting_row};
ghost use Rattle.vortex_value_rows.specs.Inside.{inside_term, in_fitting, in_rows};

use crate::leaf::{is_binary, is_of_kind, is_str, is_text, is_wide, number_of_bytes};
use crate::part_types::{Inside, value_at};
use vortex_names::{DecimalDType, Nullability};
use vortex_scalar_value::{ScalarValue, ValueRef};
use vortex_types::{Shape, TypeRef};
use vortex_value::PType;

/// Whether the value fits the type.
#[cycle(fitting)]
pub fn fits(of: TypeRef<'_>, value: &ScalarValue) -> bool
    ensures { result ≡ is_some (fitting_row (ref_term of.entry) value.now) }
{
    match of.shape() {
        Shape::Null => value.is_null(),
        Shape::Bool(n) => fits_bool(n, value),
        Shape::Primitive(ptype, n) => fits_primitive(ptype, n, value),
        Shape::Decimal(dtype, n) => fits_decimal(dtype, n, value),
        Shape::Utf8(n) => fits_utf8(n, value),
        Shape::Binary(n) => fits_binary(n, value),
        Shape::Struct(fields, n) => match value.value_ref() {
            ValueRef::Null => bool::from(n),
            ValueRef::List(values) => fits_inside(Inside::Fields(fields), values),
            _ => false,
        },
        Shape::List(element, n) => match value.value_ref() {
            ValueRef::Null => bool::from(n),
            ValueRef::List(values) => fits_inside(Inside::Every(element), values),
            _ => false,
        },
        Shape::Extension(_, storage, _) => fits(storage, value),
        Shape::FixedSizeList(element, size, n) => match value.value_ref() {
            ValueRef::Null => bool::from(n),
            ValueRef::List(values) => {
                values.len() == size as usize && fits_inside(Inside::Every(element), values)
            }
            _ => false,
        },
    }
}

/// Whether the values inside a list or a struct fit.
#[cycle(fitting)]
fn fits_inside(inside: Inside<'_>, values: &[ScalarValue]) -> bool
    ensures { let c = inside_term inside.entry in
        result ≡ option_map_or (in_fitting c) (in_rows c (values_from values.now)) false }
{
    let n = values.len();
    if !inside.takes(n) {
        return false;
    }
    for i in 0..n {
        match inside.part(i) {
            Some(of) => {
                if !fits(of, value_at(values, i)) {
                    return false;
                }
            }
            None => return false,
        }
    }
    true
}

fn fits_bool(n: Nullability, value: &ScalarValue) -> bool
    ensures { result ≡ is_some (fitting_row (boolean (is_nullable n)) value.now) }
{
    match value.value_ref() {
        ValueRef::Null => bool::from(n),
        ValueRef::Bool(_) => true,
        _ => false,
    }
}

fn fits_primitive(ptype: PType, n: Nullability, value: &ScalarValue) -> bool
    ensures { result
        ≡ is_some (fitting_row (primitive (whole_kind ptype) (is_nullable n)) value.now) }
{
    match value.value_ref() {
        ValueRef::Null => bool::from(n),
        ValueRef::Primitive(number) => is_of_kind(ptype, number.as_i128()),
        _ => false,
    }
}

fn fits_decimal(dtype: DecimalDType, n: Nullability, value: &ScalarValue) -> bool
    ensures { result
        ≡ is_some (fitting_row (decimal dtype.precision dtype.scale (is_nullable n)) value.now) }
{
    match value.value_ref() {
        ValueRef::Null => bool::from(n),
        ValueRef::Decimal(number) => is_wide(number.as_i128()),
        ValueRef::Buffer(bytes) => match number_of_bytes(bytes.as_slice()) {
            Some(number) => is_wide(number),
            None => false,
        },
        _ => false,
    }
}

fn fits_utf8(n: Nullability, value: &ScalarValue) -> bool
    ensures { result ≡ is_some (fitting_row (utf8 (is_nullable n)) value.now) }
{
    match value.value_ref() {
        ValueRef::Null => bool::from(n),
        ValueRef::Buffer(bytes) => is_text(bytes.as_slice()),
        ValueRef::BufferString(text) => is_str(text.as_str()),
        _ => false,
    }
}

fn fits_binary(n: Nullability, value: &ScalarValue) -> bool
    ensures { result ≡ is_some (fitting_row (binary (is_nullable n)) value.now) }
{
    match value.value_ref() {
        ValueRef::Null => bool::from(n),
        ValueRef::Buffer(bytes) => is_binary(bytes.as_slice()),
        ValueRef::BufferString(text) => is_binary(text.as_str().as_bytes()),
        _ => false,
    }
}
