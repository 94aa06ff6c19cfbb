//! The types of the values inside a list or a struct.

ghost use Rattle.std.specs.Prelude.{◌≡◌, ◌<◌, length, slice_get, Some};
ghost use Rattle.std.specs.Option.{option_map, IsSome};
ghost use Rattle.vortex_types.specs.TypeRefs.{ref_term};
ghost use Rattle.vortex_value_rows.specs.Inside.{inside_term, in_of, in_at, in_takes};

use vortex_scalar_value::ScalarValue;
use vortex_types::{FieldsRef, Shape, TypeRef};

/// The types of the values inside a list or a struct. It takes no memory.
#[derive(Clone, Copy)]
pub enum Inside<'a> {
    /// One type for every value.
    Every(TypeRef<'a>),
    /// A type for each field.
    Fields(FieldsRef<'a>),
}

impl<'a> Inside<'a> {
    /// Whether there may be so many values.
    pub fn takes(self, n: usize) -> bool
        ensures { result ≡ in_takes (inside_term self.entry) n }
    {
        match self {
            Inside::Every(_) => true,
            Inside::Fields(fields) => fields.len() == n,
        }
    }

    /// The type of the value at an index.
    pub fn part(self, i: usize) -> Option<TypeRef<'a>>
        ensures { option_map ref_term result ≡ in_at (inside_term self.entry) i }
    {
        match self {
            Inside::Every(of) => Some(of),
            Inside::Fields(fields) => fields.part(i),
        }
    }
}

/// The types of the values inside a list or a struct of this type.
fn try_parts<'a>(of: TypeRef<'a>) -> Option<Inside<'a>>
    ensures { option_map inside_term result ≡ in_of (ref_term of.entry) }
{
    match of.shape() {
        Shape::Struct(fields, _) => Some(Inside::Fields(fields)),
        Shape::List(element, _) => Some(Inside::Every(element)),
        Shape::Extension(_, storage, _) => try_parts(storage),
        Shape::FixedSizeList(element, _, _) => Some(Inside::Every(element)),
        _ => None,
    }
}

/// The types of the values inside a list or a struct of this type, or inside its storage.
pub fn parts_of<'a>(of: TypeRef<'a>) -> Inside<'a>
    requires { IsSome (in_of (ref_term of)) }
    ensures { in_of (ref_term of.entry) ≡ Some (inside_term result) }
{
    match try_parts(of) {
        Some(inside) => inside,
        None => unreachable!(),
    }
}

/// The type of the value at an index.
pub fn part_at<'a>(inside: Inside<'a>, i: usize) -> TypeRef<'a>
    requires { IsSome (in_at (inside_term inside) i) }
    ensures { in_at (inside_term inside.entry) i ≡ Some (ref_term result) }
{
    match inside.part(i) {
        Some(of) => of,
        None => unreachable!(),
    }
}

/// The value at an index.
pub fn value_at<'a>(values: &'a [ScalarValue], i: usize) -> &'a ScalarValue
    requires { i < length values.now }
    ensures { slice_get values.now i ≡ Some result.now }
{
    &values[i]
}
