//! Rows whose parts are values still.

ghost use Rattle.std.specs.Prelude.{◌≡◌};
ghost use Rattle.std.specs.Option.{option_and_then, IsSome};
ghost use Rattle.vortex_types.specs.TypeRefs.{ref_term};
ghost use Rattle.vortex_value_rows.specs.RowOf.{row_of};
ghost use Rattle.vortex_value_rows.specs.HeldRow.{held_row, held_form};

use crate::leaf::number_of_bytes;
use vortex_scalar_value::{ScalarValue, ValueRef};
use vortex_types::{Shape, TypeRef};

/// A row, the rows inside a list being values still. It takes no memory.
#[derive(Clone, Copy)]
pub enum RowRef<'a> {
    Null,
    Truth(bool),
    /// A whole number, or the unscaled number of a decimal.
    Whole(i128),
    /// Bytes, or a text's bytes.
    Bytes(&'a [u8]),
    /// The values inside a list or a struct.
    List(&'a [ScalarValue]),
}

impl<'a> RowRef<'a> {
    /// The place of the row's form in the order: 0 of null to 4 of a list.
    pub fn form(self) -> u8
        ensures { result ≡ held_form self.entry }
    {
        match self {
            RowRef::Null => 0,
            RowRef::Truth(_) => 1,
            RowRef::Whole(_) => 2,
            RowRef::Bytes(_) => 3,
            RowRef::List(_) => 4,
        }
    }
}

/// The row that the value is under the type. Whether the values inside it have rows is not
/// looked at.
fn try_row_ref<'a>(of: TypeRef<'_>, value: &'a ScalarValue) -> Option<RowRef<'a>>
    ensures { let t = ref_term of.entry in
        option_and_then (held_row t) result ≡ row_of t value.now }
{
    match (of.shape(), value.value_ref()) {
        (Shape::Extension(_, storage, _), _) => try_row_ref(storage, value),
        (_, ValueRef::Null) => Some(RowRef::Null),
        (Shape::Bool(_), ValueRef::Bool(value)) => Some(RowRef::Truth(value)),
        (Shape::Primitive(_, _), ValueRef::Primitive(number)) => {
            Some(RowRef::Whole(number.as_i128()))
        }
        (Shape::Decimal(_, _), ValueRef::Decimal(number)) => {
            Some(RowRef::Whole(number.as_i128()))
        }
        (Shape::Decimal(_, _), ValueRef::Buffer(bytes)) => {
            match number_of_bytes(bytes.as_slice()) {
                Some(number) => Some(RowRef::Whole(number)),
                None => None,
            }
        }
        (Shape::Utf8(_) | Shape::Binary(_), ValueRef::Buffer(bytes)) => {
            Some(RowRef::Bytes(bytes.as_slice()))
        }
        (Shape::Utf8(_) | Shape::Binary(_), ValueRef::BufferString(text)) => {
            Some(RowRef::Bytes(text.as_str().as_bytes()))
        }
        (
            Shape::Struct(_, _) | Shape::List(_, _) | Shape::FixedSizeList(_, _, _),
            ValueRef::List(values),
        ) => Some(RowRef::List(values)),
        _ => None,
    }
}

/// The row that the value is under the type.
pub fn row_ref<'a>(of: TypeRef<'_>, value: &'a ScalarValue) -> RowRef<'a>
    requires { IsSome (row_of (ref_term of) value.now) }
    ensures { held_row (ref_term of.entry) result ≡ row_of (ref_term of.entry) value.now }
{
    match try_row_ref(of, value) {
        Some(row) => row,
        None => unreachable!(),
    }
}
