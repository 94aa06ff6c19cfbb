//! Views of truth values.

ghost use Rattle.std.specs.Prelude.{IsTrue};
ghost use Rattle.vortex_terms.specs.Row.{truth_row};
ghost use Rattle.vortex_terms.specs.Tests.{is_fitting};
ghost use Rattle.vortex_types.specs.DTypes.{term_of};
ghost use Rattle.vortex_types.specs.Predicates.{is_boolean};
ghost use Rattle.vortex_scalar.specs.ViewRows.{or_null};

use crate::scalar::Scalar;
use vortex_scalar_value::{ScalarError, ScalarValue, ValueRef};
use vortex_types::DType;

/// A truth value or null, and its type. Contracts see it as its type and its row, by `bool_term`.
#[derive(Clone, Copy)]
pub struct BoolScalar<'a> {
    dtype: &'a DType,
    value: Option<bool>,
    ghost kind: { IsTrue (is_boolean (term_of dtype.now)) },
    ghost fits: { IsTrue (is_fitting (term_of dtype.now) (or_null truth_row value)) },
}

impl<'a> BoolScalar<'a> {
    ghost use Rattle.std.specs.Prelude.{◌≡◌};
    ghost use Rattle.std.specs.Option.{option_map};
    ghost use Rattle.vortex_scalar.specs.ViewRows.{view_of, inverted, Shows};
    ghost use Rattle.vortex_terms.specs.Types.{Legal};
    ghost use Rattle.vortex_terms.specs.Fits.{Fits};
    ghost use Rattle.vortex_scalar.specs.Views.{bool_term};

    /// The view of a value under a type.
    fn of(dtype: &'a DType, value: &ScalarValue) -> Result<BoolScalar<'a>, ScalarError>
        ensures { Shows bool_term result (view_of is_boolean (term_of dtype.now) value.now) }
    {
        match dtype {
            DType::Bool(n) => match value.value_ref() {
                ValueRef::Null if bool::from(*n) => Ok(BoolScalar { dtype, value: None }),
                ValueRef::Bool(value) => Ok(BoolScalar {
                    dtype,
                    value: Some(value),
                }),
                _ => Err(ScalarError::DoesNotFit),
            },
            _ => Err(ScalarError::WrongType),
        }
    }

    /// The type.
    pub fn dtype(&self) -> &'a DType
        ensures { term_of result.now ≡ (bool_term self.now).dtype }
    {
        self.dtype
    }

    /// The other truth value. Null stays null.
    pub fn invert(self) -> BoolScalar<'a>
        ensures { bool_term result ≡ inverted (bool_term self.entry) }
    {
        BoolScalar {
            dtype: self.dtype,
            value: self.value.map(|value| !value),
        }
    }

    /// The scalar of this type and this row.
    pub fn into_scalar(self) -> Scalar
        ensures { result ≡ bool_term self.entry }
    {
        let value = match self.value {
            Some(value) => ScalarValue::from_bool(value),
            None => ScalarValue::null(),
        };
        Scalar::new(DType::Bool(self.dtype.nullability()), value)
    }

    /// The type is a legal one of truth values, and the row fits it. It does nothing when the
    /// program runs.
    pub fn law(&self)
        ensures kind { IsTrue (is_boolean (bool_term self.now).dtype) }
        ensures legal { Legal (bool_term self.now).dtype }
        ensures fits { Fits (bool_term self.now).dtype (bool_term self.now).row }
    {
        self.dtype.law();
    }

    /// The truth value, if it is not null.
    pub fn value(&self) -> Option<bool>
        ensures { or_null truth_row result ≡ (bool_term self.now).row }
    {
        self.value
    }
}

impl Scalar {
    ghost use Rattle.std.specs.Prelude.{◌≡◌, IsTrue, Some, None, if◌then◌else◌};
    ghost use Rattle.std.specs.Option.{option_map};
    ghost use Rattle.vortex_scalar.specs.Views.{bool_term};

    /// The view of a truth value, and none of a scalar of another type.
    pub fn as_bool_opt(&self) -> Option<BoolScalar<'_>>
        ensures { option_map bool_term result
            ≡ (if is_boolean self.now.dtype then Some self.now else None) }
    {
        self.law();
        BoolScalar::of(self.dtype(), self.value()).ok()
    }

    /// The view of a truth value.
    pub fn as_bool(&self) -> BoolScalar<'_>
        requires { IsTrue (is_boolean self.now.dtype) }
        ensures { bool_term result ≡ self.now }
    {
        self.as_bool_opt().unwrap()
    }
}
