//! Types.

ghost use Rattle.std.specs.Prelude.{◌≡◌, false, map, IfOk, IsOkUnless};
ghost use Rattle.vortex_terms.specs.Term.{primitive, structure, list, unsigned_8};
ghost use Rattle.vortex_terms.specs.Types.{Legal, fields_from};
ghost use Rattle.vortex_names.specs.Nullable.{is_nullable as is_null};
ghost use Rattle.vortex_number.specs.WholeKind.{whole_kind};
ghost use Rattle.vortex_types.specs.DTypes.{term_of};

use crate::element::Element;
use crate::extension::ExtDType;
use crate::field_dtype::FieldDType;
use crate::struct_fields::StructFields;
use std::alloc::Global;
use std::rc::Rc;
use vortex_names::{DTypeError, DecimalDType, FieldName, FieldNames, Nullability};
use vortex_number::PType;

/// A logical type of the rows of an array.
#[cycle(types)]
#[derive(Drop)]
pub enum DType {
    /// Only null.
    Null,
    /// Truth values.
    Bool(Nullability),
    /// Whole numbers of a kind.
    Primitive(PType, Nullability),
    /// Decimals of a precision and a scale.
    Decimal(DecimalDType, Nullability),
    /// Texts.
    Utf8(Nullability),
    /// Bytes.
    Binary(Nullability),
    /// A row of each field.
    Struct(StructFields, Nullability),
    /// Lists of any length.
    List(Element, Nullability),
    /// A type with a name of its own, stored as another.
    Extension(Rc<ExtDType>),
    /// Lists of one length.
    FixedSizeList(Element, u32, Nullability),
}

impl DType {
    /// Bytes as whole numbers.
    pub const BYTES: DType = DType::Primitive(PType::U8, Nullability::NonNullable);

    /// Bytes as whole numbers, as `BYTES`.
    pub fn bytes() -> DType
        ensures { term_of result ≡ primitive unsigned_8 false }
    {
        DType::BYTES
    }

    /// Whole numbers of this kind, none of them null.
    pub fn from_ptype(ptype: PType) -> DType
        ensures { term_of result ≡ primitive (whole_kind ptype) false }
    {
        DType::Primitive(ptype, Nullability::NonNullable)
    }

    /// Lists of elements of this type.
    pub fn list(alloc: Global, dtype: DType, nullability: Nullability) -> Result<DType, DTypeError>
        ensures term { IfOk result (λ t. term_of t ≡ list (term_of dtype) (is_null nullability)) }
        ensures memory { IsOkUnless result DTypeError.OutOfMemory }
    {
        let element = Element::new(alloc, dtype)?;
        Ok(DType::List(element, nullability))
    }

    /// A struct of these fields.
    pub fn struct_(
        alloc: Global,
        fields: &[(&str, DType)],
        nullability: Nullability,
    ) -> Result<DType, DTypeError>
        ensures term { let names = map (λ f. f.0.now) fields.now in
            let types = map (λ f. term_of f.1) fields.now in
            let n = is_null nullability in
            IfOk result (λ t. term_of t ≡ structure (fields_from names types) n) }
        ensures memory { IsOkUnless result DTypeError.OutOfMemory }
    {
        let mut names = Vec::new(alloc);
        let mut dtypes = Vec::new(alloc);
        for (name, dtype) in fields {
            names.push(FieldName::from_text(alloc, name)?)?;
            dtypes.push(FieldDType::from_dtype(dtype.try_clone(alloc)?))?;
        }
        let names = FieldNames::from_names(alloc, names)?;
        let fields = StructFields::from_fields(alloc, names, dtypes)?;
        Ok(DType::Struct(fields, nullability))
    }

    /// An equal type. Its parts are shared.
    pub fn try_clone(&self, alloc: Global) -> Result<DType, DTypeError>
        ensures term { IfOk result (λ t. term_of t ≡ term_of self.now) }
        ensures memory { IsOkUnless result DTypeError.OutOfMemory }
    {
        Ok(match self {
            DType::Null => DType::Null,
            DType::Bool(n) => DType::Bool(*n),
            DType::Primitive(ptype, n) => DType::Primitive(*ptype, *n),
            DType::Decimal(decimal, n) => DType::Decimal(*decimal, *n),
            DType::Utf8(n) => DType::Utf8(*n),
            DType::Binary(n) => DType::Binary(*n),
            DType::Struct(fields, n) => DType::Struct(fields.try_clone(alloc)?, *n),
            DType::List(element, n) => DType::List(element.try_clone(alloc)?, *n),
            DType::Extension(ext) => DType::Extension(ext.clone()?),
            DType::FixedSizeList(element, size, n) => {
                DType::FixedSizeList(element.try_clone(alloc)?, *size, *n)
            }
        })
    }

    /// The type is legal. It does nothing when the program runs.
    pub fn law(&self)
        ensures { Legal (term_of self.now) }
    {
        match self {
            DType::Decimal(decimal, _) => decimal.law(),
            DType::Struct(fields, _) => fields.law(),
            DType::List(element, _) => element.law(),
            DType::Extension(ext) => ext.law(),
            DType::FixedSizeList(element, size, _) => {
                let _size = *size;
                element.law();
            }
            DType::Null
            | DType::Bool(_)
            | DType::Primitive(_, _)
            | DType::Utf8(_)
            | DType::Binary(_) => {}
        }
    }
}
