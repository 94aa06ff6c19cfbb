//! How many bytes the rows of values take.

ghost use Rattle.std.specs.Prelude.{◌≡◌, sum_by};
ghost use Rattle.std.specs.Option.{option_map_or, IsSome};
ghost use Rattle.vortex_terms.specs.Types.{field_at};
ghost use Rattle.vortex_types.specs.TypeRefs.{fields_term, ref_term};
ghost use Rattle.vortex_value_rows.specs.RowOf.{row_of, row_under};
ghost use Rattle.vortex_scalar_text.specs.Size.{byte_size, decimal_size, in_usize};
ghost use Rattle.vortex_scalar_text.specs.inner.Sizes.{content_of, field_value_sizes};
ghost use Rattle.vortex_scalar_text.specs.inner.Sizes.{value_size, values_in};

use vortex_names::{DECIMAL128_MAX_PRECISION, DecimalDType};
use vortex_scalar_value::{ScalarValue, ValueRef};
use vortex_types::{FieldsRef, Shape, TypeRef};
use vortex_value_rows::value_at;

/// How many bytes the row takes that the value is under the type: none where it is no `usize`.
#[tactic(auto, using(crate::proofs::SizeOfRow::size_under))]
pub fn byte_size(of: TypeRef<'_>, value: &ScalarValue) -> Option<usize>
    requires { IsSome (row_of (ref_term of) value.now) }
    ensures { let t = ref_term of.entry in
        result ≡ in_usize (byte_size t (row_under t value.now)) }
{
    size(of, value)
}

/// The size of a value under a type.
#[cycle(sizing)]
fn size(of: TypeRef<'_>, value: &ScalarValue) -> Option<usize>
    ensures { result ≡ in_usize (value_size (ref_term of.entry) value.now) }
{
    match of.shape() {
        Shape::Null => Some(0),
        Shape::Bool(_) => Some(1),
        Shape::Primitive(ptype, _) => Some(ptype.byte_width()),
        Shape::Decimal(decimal, _) => Some(size_of_decimal(decimal)),
        Shape::Utf8(_) | Shape::Binary(_) => Some(content(value).len()),
        Shape::Struct(fields, _) => size_of_fields(fields, inside(value)),
        Shape::List(element, _) | Shape::FixedSizeList(element, _, _) => {
            size_of_elements(element, inside(value))
        }
        Shape::Extension(_, storage, _) => size(storage, value),
    }
}

/// The size of the elements of a list together.
#[cycle(sizing)]
fn size_of_elements(element: TypeRef<'_>, values: &[ScalarValue]) -> Option<usize>
    ensures { result ≡ in_usize (sum_by (value_size (ref_term element.entry)) values.now) }
{
    let mut total: usize = 0;
    for value in values {
        total = total.checked_add(size(element, value)?)?;
    }
    Some(total)
}

/// The size of the fields of a struct together.
#[cycle(sizing)]
fn size_of_fields(fields: FieldsRef<'_>, values: &[ScalarValue]) -> Option<usize>
    ensures { result ≡ in_usize (field_value_sizes (fields_term fields.entry) values.now) }
{
    let mut total: usize = 0;
    for i in 0..values.len() {
        total = total.checked_add(size_of_field(fields, i, value_at(values, i))?)?;
    }
    Some(total)
}

/// The size of a value as the field at an index, and 0 where there is no such field.
#[cycle(sizing)]
#[tactic(auto, using(crate::proofs::Sized::part_lighter))]
fn size_of_field(fields: FieldsRef<'_>, i: usize, value: &ScalarValue) -> Option<usize>
    ensures { let part = field_at (fields_term fields.entry) i in
        result ≡ in_usize (option_map_or (λ t. value_size t value.now) part 0) }
{
    match fields.part(i) {
        Some(of) => size(of, value),
        None => Some(0),
    }
}

fn size_of_decimal(decimal: DecimalDType) -> usize
    ensures { result ≡ decimal_size decimal.precision }
{
    if decimal.precision() <= DECIMAL128_MAX_PRECISION {
        16
    } else {
        32
    }
}

/// The bytes of a text or of bytes, and none of another value.
pub(crate) fn content(value: &ScalarValue) -> &[u8]
    ensures { result.now ≡ content_of value.now }
{
    match value.value_ref() {
        ValueRef::Buffer(bytes) => bytes.as_slice(),
        ValueRef::BufferString(text) => text.as_str().as_bytes(),
        _ => &[],
    }
}

/// The values inside a list or a struct, and none of another value.
pub(crate) fn inside(value: &ScalarValue) -> &[ScalarValue]
    ensures { result.now ≡ values_in value.now }
{
    match value.value_ref() {
        ValueRef::List(values) => values,
        _ => &[],
    }
}
