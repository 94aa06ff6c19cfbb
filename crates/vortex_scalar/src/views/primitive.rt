//! Views of whole numbers.

ghost use Rattle.std.specs.Prelude.{◌≡◌, IsTrue, Some};
ghost use Rattle.std.specs.Option.{ForSome};
ghost use Rattle.vortex_terms.specs.Row.{whole_row};
ghost use Rattle.vortex_terms.specs.Tests.{is_fitting};
ghost use Rattle.vortex_number.specs.WholeKind.{whole_kind};
ghost use Rattle.vortex_types.specs.DTypes.{term_of};
ghost use Rattle.vortex_types.specs.Accessors.{whole_kind_of};
ghost use Rattle.vortex_value.specs.PValue.{kind_of, number_of};
ghost use Rattle.vortex_scalar.specs.ViewRows.{or_null};

use super::kinds::of_kind;
use crate::scalar::Scalar;
use vortex_number::PType;
use vortex_scalar_value::{ScalarError, ScalarValue, ValueRef};
use vortex_types::DType;
use vortex_value::{NativePType, PValue};

/// A whole number or null, and its type, of whose kind the number is. Contracts see it as its type
/// and its row, by `primitive_term`.
#[derive(Clone, Copy)]
pub struct PrimitiveScalar<'a> {
    pub(super) dtype: &'a DType,
    pub(super) ptype: PType,
    pub(super) pvalue: Option<PValue>,
    ghost kind: { whole_kind_of (term_of dtype.now) ≡ Some (whole_kind ptype) },
    ghost own: { ForSome pvalue (λ v. kind_of v ≡ ptype) },
    ghost fits: { IsTrue (is_fitting (term_of dtype.now)
        (or_null (λ v. whole_row (number_of v)) pvalue)) },
}

impl<'a> PrimitiveScalar<'a> {
    ghost use Rattle.std.specs.Prelude.{IfSome, IsSome};
    ghost use Rattle.std.specs.Option.{option_map};
    ghost use Rattle.vortex_terms.specs.Types.{Legal};
    ghost use Rattle.vortex_terms.specs.Fits.{Fits};
    ghost use Rattle.vortex_types.specs.Predicates.{is_primitive};
    ghost use Rattle.vortex_scalar.specs.ViewRows.{number_in, view_of, within, Shows};
    ghost use Rattle.vortex_scalar.specs.Views.{primitive_term};

    /// The view of a value under a type. A type of another kind is a WrongType, and a value that
    /// does not fit the type is a DoesNotFit.
    pub fn try_new(
        dtype: &'a DType,
        value: &ScalarValue,
    ) -> Result<PrimitiveScalar<'a>, ScalarError>
        ensures { Shows primitive_term result
            (view_of is_primitive (term_of dtype.now) value.now) }
    {
        match dtype {
            DType::Primitive(ptype, n) => match value.value_ref() {
                ValueRef::Null if bool::from(*n) => Ok(PrimitiveScalar {
                    dtype,
                    ptype: *ptype,
                    pvalue: None,
                }),
                ValueRef::Primitive(value) => match of_kind(*ptype, value) {
                    Some(value) => Ok(PrimitiveScalar {
                        dtype,
                        ptype: *ptype,
                        pvalue: Some(value),
                    }),
                    None => Err(ScalarError::DoesNotFit),
                },
                _ => Err(ScalarError::DoesNotFit),
            },
            _ => Err(ScalarError::WrongType),
        }
    }

    /// The type.
    pub fn dtype(&self) -> &'a DType
        ensures { term_of result.now ≡ (primitive_term self.now).dtype }
    {
        self.dtype
    }

    /// The kind of whole numbers of the type.
    pub fn ptype(&self) -> PType
        ensures { Some (whole_kind result) ≡ whole_kind_of (primitive_term self.now).dtype }
    {
        self.ptype
    }

    /// The number, of the type's kind, if it is not null.
    pub fn pvalue(&self) -> Option<PValue>
        ensures row { or_null (λ v. whole_row (number_of v)) result
            ≡ (primitive_term self.now).row }
        ensures kind { IfSome result (λ v. Some (whole_kind (kind_of v))
            ≡ whole_kind_of (primitive_term self.now).dtype) }
    {
        self.pvalue
    }

    /// The number, if it is not null.
    pub(super) fn number(&self) -> Option<i128>
        ensures { or_null whole_row result ≡ (primitive_term self.now).row }
    {
        self.pvalue.map(|value| value.as_i128())
    }

    /// The number as the native type of the type's kind, if it is not null.
    pub fn typed_value<T: NativePType>(&self) -> Option<T>
        requires { whole_kind_of (primitive_term self.now).dtype ≡ Some (whole_kind T.PTYPE) }
        ensures { or_null (λ x. whole_row (T.number x)) result ≡ (primitive_term self.now).row }
    {
        self.as_::<T>()
    }

    /// The number as a native type in whose range it is, if it is not null.
    pub fn as_<T: NativePType>(&self) -> Option<T>
        requires { IsSome (within T.format (number_in (primitive_term self.now).row)) }
        ensures { or_null (λ x. whole_row (T.number x)) result ≡ (primitive_term self.now).row }
    {
        match self.pvalue {
            Some(value) => Some(value.as_primitive::<T>()),
            None => None,
        }
    }

    /// The number as a native type, `Some(None)` for null, and none where it is not in range.
    pub fn as_opt<T: NativePType>(&self) -> Option<Option<T>>
        ensures { option_map (option_map T.number) result
            ≡ within T.format (number_in (primitive_term self.now).row) }
    {
        match self.pvalue {
            Some(value) => value.as_primitive_opt::<T>().map(Some),
            None => Some(None),
        }
    }

    /// The scalar of this type and this row.
    pub fn into_scalar(self) -> Scalar
        ensures { result ≡ primitive_term self.entry }
    {
        let value = match self.pvalue {
            Some(value) => ScalarValue::from_pvalue(value),
            None => ScalarValue::null(),
        };
        Scalar::new(
            DType::Primitive(self.ptype, self.dtype.nullability()),
            value,
        )
    }

    /// The type is a legal one of whole numbers, and the row fits it. It does nothing when the
    /// program runs.
    pub fn law(&self)
        ensures kind { IsTrue (is_primitive (primitive_term self.now).dtype) }
        ensures legal { Legal (primitive_term self.now).dtype }
        ensures fits { Fits (primitive_term self.now).dtype (primitive_term self.now).row }
    {
        self.dtype.law();
    }
}

impl Scalar {
    ghost use Rattle.std.specs.Prelude.{None, if◌then◌else◌};
    ghost use Rattle.std.specs.Option.{option_map};
    ghost use Rattle.vortex_types.specs.Predicates.{is_primitive};
    ghost use Rattle.vortex_scalar.specs.Views.{primitive_term};

    /// The view of a whole number, and none of a scalar of another type.
    pub fn as_primitive_opt(&self) -> Option<PrimitiveScalar<'_>>
        ensures { option_map primitive_term result
            ≡ (if is_primitive self.now.dtype then Some self.now else None) }
    {
        self.law();
        PrimitiveScalar::try_new(self.dtype(), self.value()).ok()
    }

    /// The view of a whole number.
    pub fn as_primitive(&self) -> PrimitiveScalar<'_>
        requires { IsTrue (is_primitive self.now.dtype) }
        ensures { primitive_term result ≡ self.now }
    {
        self.as_primitive_opt().unwrap()
    }
}
