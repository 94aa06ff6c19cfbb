//! References to types.

ghost use Rattle.std.specs.Prelude.{◌≡◌};
ghost use Rattle.std.specs.Option.{option_copied, option_map};
ghost use Rattle.vortex_terms.specs.Types.{Legal, nullable, field_count, part_at, type_number};
ghost use Rattle.vortex_names.specs.Nullable.{nullability_of};
ghost use Rattle.vortex_number.specs.WholeKind.{whole_kind};
ghost use Rattle.vortex_types.specs.DTypes.{term_of};
ghost use Rattle.vortex_types.specs.TypeRefs.{ref_term};
ghost use Rattle.vortex_types.specs.Accessors.{whole_kind_of, decimal_type_of, list_size_of};
ghost use Rattle.vortex_types.specs.Accessors.{fields_of, field_name_at, id_of, metadata_of};

use crate::dtype::DType;
use vortex_names::{DecimalDType, Nullability};
use vortex_number::PType;

/// A reference to a type, wherever it stands. It takes no memory. Contracts see the type as its
/// term, by `ref_term`.
#[derive(Clone, Copy)]
pub struct TypeRef<'a> {
    pub(crate) kind: RefKind<'a>,
}

/// Where the type stands.
#[derive(Clone, Copy)]
pub(crate) enum RefKind<'a> {
    Owned(&'a DType),
}

impl DType {
    /// A reference to the type.
    pub fn type_ref(&self) -> TypeRef<'_>
        ensures { ref_term result ≡ term_of self.now }
    {
        TypeRef {
            kind: RefKind::Owned(self),
        }
    }
}

impl<'a> TypeRef<'a> {
    /// Whether a row may be null.
    pub fn nullability(self) -> Nullability
        ensures { result ≡ nullability_of (nullable (ref_term self.entry)) }
    {
        match self.kind {
            RefKind::Owned(dtype) => dtype.nullability(),
        }
    }

    /// The number of the kind of type.
    pub fn kind(self) -> u8
        ensures { result ≡ type_number (ref_term self.entry) }
    {
        match self.kind {
            RefKind::Owned(dtype) => match dtype {
                DType::Null => 1,
                DType::Bool(_) => 2,
                DType::Primitive(_, _) => 3,
                DType::Decimal(_, _) => 4,
                DType::Utf8(_) => 5,
                DType::Binary(_) => 6,
                DType::Struct(_, _) => 7,
                DType::List(_, _) => 8,
                DType::Extension(_) => 9,
                DType::FixedSizeList(_, _, _) => 10,
            },
        }
    }

    /// The kind of whole numbers of a primitive type.
    pub fn ptype(self) -> Option<PType>
        ensures { option_map whole_kind result ≡ whole_kind_of (ref_term self.entry) }
    {
        match self.kind {
            RefKind::Owned(dtype) => match dtype {
                DType::Primitive(ptype, _) => Some(*ptype),
                _ => None,
            },
        }
    }

    /// The precision and the scale of a decimal type.
    pub fn decimal(self) -> Option<DecimalDType>
        ensures { result ≡ decimal_type_of (ref_term self.entry) }
    {
        match self.kind {
            RefKind::Owned(dtype) => match dtype {
                DType::Decimal(decimal, _) => Some(*decimal),
                _ => None,
            },
        }
    }

    /// How long each list of a fixed-size list type is.
    pub fn size(self) -> Option<u32>
        ensures { result ≡ list_size_of (ref_term self.entry) }
    {
        match self.kind {
            RefKind::Owned(dtype) => match dtype {
                DType::FixedSizeList(_, size, _) => Some(*size),
                _ => None,
            },
        }
    }

    /// How many fields a struct has, and 0 for another type.
    pub fn nfields(self) -> usize
        ensures { result ≡ field_count (fields_of (ref_term self.entry)) }
    {
        match self.kind {
            RefKind::Owned(dtype) => match dtype {
                DType::Struct(fields, _) => fields.nfields(),
                _ => 0,
            },
        }
    }

    /// The name of the field at an index of a struct.
    pub fn field_name(self, i: usize) -> Option<&'a str>
        ensures { option_copied result ≡ field_name_at (ref_term self.entry) i }
    {
        match self.kind {
            RefKind::Owned(dtype) => match dtype {
                DType::Struct(fields, _) => match fields.field_name(i) {
                    Some(name) => Some(name.as_str()),
                    None => None,
                },
                _ => None,
            },
        }
    }

    /// The id of an extension type.
    pub fn ext_id(self) -> Option<&'a str>
        ensures { option_copied result ≡ id_of (ref_term self.entry) }
    {
        match self.kind {
            RefKind::Owned(dtype) => match dtype {
                DType::Extension(ext) => Some(ext.id().as_str()),
                _ => None,
            },
        }
    }

    /// The metadata of an extension type, where it has any.
    pub fn ext_metadata(self) -> Option<&'a [u8]>
        ensures { option_copied result ≡ metadata_of (ref_term self.entry) }
    {
        match self.kind {
            RefKind::Owned(dtype) => match dtype {
                DType::Extension(ext) => match ext.metadata() {
                    Some(metadata) => Some(metadata.as_slice()),
                    None => None,
                },
                _ => None,
            },
        }
    }

    /// The type directly inside at an index: a field of a struct, and at 0 the element of a list
    /// or the storage of an extension.
    pub fn part(self, i: usize) -> Option<TypeRef<'a>>
        ensures { option_map ref_term result ≡ part_at (ref_term self.entry) i }
    {
        match self.kind {
            RefKind::Owned(dtype) => match dtype {
                DType::Struct(fields, _) => match fields.kinds().get(i) {
                    Some(field) => Some(field.type_ref()),
                    None => None,
                },
                DType::List(element, _) | DType::FixedSizeList(element, _, _) if i == 0 => {
                    Some(element.as_dtype().type_ref())
                }
                DType::Extension(ext) if i == 0 => Some(ext.storage_dtype().type_ref()),
                _ => None,
            },
        }
    }

    /// The type is legal. It does nothing when the program runs.
    pub fn law(self)
        ensures { Legal (ref_term self.entry) }
    {
        match self.kind {
            RefKind::Owned(dtype) => dtype.law(),
        }
    }
}
