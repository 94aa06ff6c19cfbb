//! What a type holds.

ghost use Rattle.std.specs.Prelude.{◌≡◌, ok_or, Some, None, IsTrue, MatchResult};
ghost use Rattle.std.specs.Option.{option_copied};
ghost use Rattle.vortex_number.specs.WholeKind.{whole_kind};
ghost use Rattle.vortex_types.specs.Predicates as term;
ghost use Rattle.vortex_types.specs.Accessors.{whole_kind_of, decimal_type_of, list_element_of};
ghost use Rattle.vortex_types.specs.Accessors.{fixed_size_list_element_of};
ghost use Rattle.vortex_types.specs.Accessors.{any_size_list_element_of, struct_fields_of};
ghost use Rattle.vortex_types.specs.DTypes.{term_of};

use crate::dtype::DType;
use crate::element::Element;
use crate::struct_fields::StructFields;
use vortex_names::{DTypeError, DecimalDType};
use vortex_number::PType;

impl DType {
    /// The kind of whole numbers of a primitive type.
    pub fn as_ptype(&self) -> PType
        requires { IsTrue (term.is_primitive (term_of self.now)) }
        ensures { Some (whole_kind result) ≡ whole_kind_of (term_of self.now) }
    {
        match self {
            DType::Primitive(ptype, _) => *ptype,
            _ => unreachable!(),
        }
    }

    /// The kind of whole numbers, where the type is primitive.
    pub fn try_ptype(&self) -> Result<PType, DTypeError>
        ensures { let kind = whole_kind_of (term_of self.now) in
            MatchResult result (λ k. kind ≡ Some (whole_kind k))
            (λ e. (e ≡ DTypeError.NotPrimitive) × (kind ≡ None)) }
    {
        match self {
            DType::Primitive(ptype, _) => Ok(*ptype),
            _ => Err(DTypeError::NotPrimitive),
        }
    }

    /// The precision and the scale, where the type is a decimal type.
    pub fn try_decimal(&self) -> Result<DecimalDType, DTypeError>
        ensures { result ≡ ok_or (decimal_type_of (term_of self.now)) DTypeError.NotDecimal }
    {
        match self {
            DType::Decimal(decimal, _) => Ok(*decimal),
            _ => Err(DTypeError::NotDecimal),
        }
    }

    /// The precision and the scale, where the type is a decimal type.
    pub fn as_decimal_opt(&self) -> Option<&DecimalDType>
        ensures { option_copied result ≡ decimal_type_of (term_of self.now) }
    {
        match self {
            DType::Decimal(decimal, _) => Some(decimal),
            _ => None,
        }
    }

    /// The type of the elements, where the type is that of lists of any length.
    pub fn as_list_element_opt(&self) -> Option<&Element>
        ensures { option_copied result ≡ list_element_of (term_of self.now) }
    {
        match self {
            DType::List(element, _) => Some(element),
            _ => None,
        }
    }

    /// The type of the elements, where the type is that of lists of one length.
    pub fn as_fixed_size_list_element_opt(&self) -> Option<&Element>
        ensures { option_copied result ≡ fixed_size_list_element_of (term_of self.now) }
    {
        match self {
            DType::FixedSizeList(element, _, _) => Some(element),
            _ => None,
        }
    }

    /// The type of the elements, where the type is that of lists.
    pub fn as_any_size_list_element_opt(&self) -> Option<&Element>
        ensures { option_copied result ≡ any_size_list_element_of (term_of self.now) }
    {
        match self {
            DType::List(element, _) => Some(element),
            DType::FixedSizeList(element, _, _) => Some(element),
            _ => None,
        }
    }

    /// The fields, where the type is a struct.
    pub fn as_struct_fields_opt(&self) -> Option<&StructFields>
        ensures { option_copied result ≡ struct_fields_of (term_of self.now) }
    {
        match self {
            DType::Struct(fields, _) => Some(fields),
            _ => None,
        }
    }
}
