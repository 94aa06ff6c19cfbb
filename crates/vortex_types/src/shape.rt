//! Types and fields taken apart, wherever they stand.

ghost use Rattle.std.specs.Prelude.{◌≡◌, slice_get};
ghost use Rattle.std.specs.Option.{option_copied, option_map};
ghost use Rattle.vortex_terms.specs.Types.{names_of, field_count, field_at};
ghost use Rattle.vortex_types.specs.TypeRefs.{fields_term, ref_term, shape_term};

use crate::dtype::DType;
use crate::struct_fields::StructFields;
use crate::type_ref::{RefKind, TypeRef};
use vortex_names::{DecimalDType, Nullability};
use vortex_number::PType;

/// A reference to the fields of a struct, wherever they stand. It takes no memory. Contracts see the fields by
/// `fields_term`.
#[derive(Clone, Copy)]
pub enum FieldsRef<'a> {
    Owned(&'a StructFields),
}

impl<'a> FieldsRef<'a> {
    /// How many fields there are.
    pub fn len(self) -> usize
        ensures { result ≡ field_count (fields_term self.entry) }
    {
        match self {
            FieldsRef::Owned(fields) => fields.nfields(),
        }
    }

    /// The name of the field at an index.
    pub fn name(self, i: usize) -> Option<&'a str>
        ensures { option_copied result ≡ slice_get (names_of (fields_term self.entry)) i }
    {
        match self {
            FieldsRef::Owned(fields) => match fields.field_name(i) {
                Some(name) => Some(name.as_str()),
                None => None,
            },
        }
    }

    /// The type of the field at an index.
    pub fn part(self, i: usize) -> Option<TypeRef<'a>>
        ensures { option_map ref_term result ≡ field_at (fields_term self.entry) i }
    {
        match self {
            FieldsRef::Owned(fields) => match fields.kinds().get(i) {
                Some(field) => Some(field.type_ref()),
                None => None,
            },
        }
    }
}

/// A type taken apart, its parts being references. It takes no memory. Contracts see the type by `shape_term`.
#[derive(Clone, Copy)]
pub enum Shape<'a> {
    Null,
    Bool(Nullability),
    Primitive(PType, Nullability),
    Decimal(DecimalDType, Nullability),
    Utf8(Nullability),
    Binary(Nullability),
    Struct(FieldsRef<'a>, Nullability),
    List(TypeRef<'a>, Nullability),
    Extension(&'a str, TypeRef<'a>, Option<&'a [u8]>),
    FixedSizeList(TypeRef<'a>, u32, Nullability),
}

impl<'a> TypeRef<'a> {
    /// The type taken apart.
    pub fn shape(self) -> Shape<'a>
        ensures { shape_term result ≡ ref_term self.entry }
    {
        match self.kind {
            RefKind::Owned(dtype) => match dtype {
                DType::Null => Shape::Null,
                DType::Bool(n) => Shape::Bool(*n),
                DType::Primitive(ptype, n) => Shape::Primitive(*ptype, *n),
                DType::Decimal(decimal, n) => Shape::Decimal(*decimal, *n),
                DType::Utf8(n) => Shape::Utf8(*n),
                DType::Binary(n) => Shape::Binary(*n),
                DType::Struct(fields, n) => Shape::Struct(FieldsRef::Owned(fields), *n),
                DType::List(element, n) => Shape::List(element.as_dtype().type_ref(), *n),
                DType::Extension(ext) => Shape::Extension(
                    ext.id().as_str(),
                    ext.storage_dtype().type_ref(),
                    match ext.metadata() {
                        Some(metadata) => Some(metadata.as_slice()),
                        None => None,
                    },
                ),
                DType::FixedSizeList(element, size, n) => {
                    Shape::FixedSizeList(element.as_dtype().type_ref(), *size, *n)
                }
            },
        }
    }
}
