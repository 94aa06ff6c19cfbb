//! Views of decimals.

ghost use Rattle.std.specs.Prelude.{IsTrue, ◌≡◌, ◌*◌, length, IfSome};
ghost use Rattle.std.specs.Option.{option_map};
ghost use Rattle.vortex_terms.specs.Row.{whole_row};
ghost use Rattle.vortex_terms.specs.Tests.{is_fitting};
ghost use Rattle.vortex_types.specs.DTypes.{term_of};
ghost use Rattle.vortex_types.specs.Predicates.{is_decimal};
ghost use Rattle.vortex_value.specs.DecimalValue.{decimal_number, width_of};
ghost use Rattle.vortex_value_rows.specs.RowOf.{number_of_bytes};
ghost use Rattle.vortex_scalar_text.specs.ScalarText.{width_bits};
ghost use Rattle.vortex_scalar.specs.ViewRows.{or_null};

use crate::scalar::Scalar;
use vortex_scalar_value::{ScalarError, ScalarValue, ValueRef};
use vortex_types::DType;
use vortex_value::{DecimalValue, TryFromBytes};

/// The number of a decimal or null, and its type. Contracts see it as its type and its row, by
/// `decimal_term`, and as the value that is kept, by `decimal_kept`.
#[derive(Clone, Copy)]
pub struct DecimalScalar<'a> {
    dtype: &'a DType,
    value: Option<DecimalValue>,
    ghost kind: { IsTrue (is_decimal (term_of dtype.now)) },
    ghost fits: { IsTrue (is_fitting (term_of dtype.now)
        (or_null (λ v. whole_row (decimal_number v)) value)) },
}

impl<'a> DecimalScalar<'a> {
    ghost use Rattle.std.specs.Prelude.{IfOk, Some};
    ghost use Rattle.vortex_value_rows.specs.RowOf.{row_of};
    ghost use Rattle.vortex_terms.specs.Types.{Legal};
    ghost use Rattle.vortex_terms.specs.Fits.{Fits};
    ghost use Rattle.vortex_scalar_text.specs.ScalarText.{decimal_in};
    ghost use Rattle.vortex_scalar.specs.ViewRows.{view_of, Shows};
    ghost use Rattle.vortex_scalar.specs.Views.{decimal_term, decimal_kept, kept_value};

    /// The view of a value under a type, which keeps the width of the value: of bytes that of so
    /// many. A type of another kind is a WrongType, and a value that does not fit the type is a
    /// DoesNotFit.
    #[tactic(auto, using(crate::proofs::Widths::kept_width))]
    pub fn try_new(dtype: &'a DType, value: &ScalarValue) -> Result<DecimalScalar<'a>, ScalarError>
        ensures scalar { Shows decimal_term result
            (view_of is_decimal (term_of dtype.now) value.now) }
        ensures kept { IfOk result (λ s. decimal_in (decimal_kept s) ≡ decimal_in value.now) }
    {
        match dtype {
            DType::Decimal(_, n) => match value.value_ref() {
                ValueRef::Null if bool::from(*n) => Ok(DecimalScalar { dtype, value: None }),
                ValueRef::Decimal(value) => {
                    let _number = value.as_i128();
                    Ok(DecimalScalar {
                        dtype,
                        value: Some(value),
                    })
                }
                ValueRef::Buffer(bytes) => match decimal_of_bytes(bytes.as_slice()) {
                    Some(value) => {
                        let _number = value.as_i128();
                        Ok(DecimalScalar {
                            dtype,
                            value: Some(value),
                        })
                    }
                    None => Err(ScalarError::DoesNotFit),
                },
                _ => Err(ScalarError::DoesNotFit),
            },
            _ => Err(ScalarError::WrongType),
        }
    }

    /// The type.
    pub fn dtype(&self) -> &'a DType
        ensures { term_of result.now ≡ (decimal_term self.now).dtype }
    {
        self.dtype
    }

    /// The number without the point, if it is not null, in the width that is kept.
    pub fn decimal_value(&self) -> Option<DecimalValue>
        ensures row { or_null (λ v. whole_row (decimal_number v)) result
            ≡ (decimal_term self.now).row }
        ensures kept { kept_value result ≡ decimal_kept self.now }
    {
        self.value
    }

    /// The value that is kept.
    #[tactic(auto, using(crate::proofs::Widths::kept_row))]
    pub(super) fn kept(&self) -> ScalarValue
        ensures value { result ≡ decimal_kept self.now }
        ensures row { row_of (decimal_term self.now).dtype result
            ≡ Some (decimal_term self.now).row }
    {
        match self.value {
            Some(value) => ScalarValue::from_decimal(value),
            None => ScalarValue::null(),
        }
    }

    /// The number without the point, if it is not null.
    pub(super) fn number(&self) -> Option<i128>
        ensures { or_null whole_row result ≡ (decimal_term self.now).row }
    {
        self.value.map(|value| value.as_i128())
    }

    /// The scalar of this type and this row.
    pub fn into_scalar(self) -> Scalar
        ensures { result ≡ decimal_term self.entry }
    {
        let value = match self.value {
            Some(value) => ScalarValue::from_decimal(value),
            None => ScalarValue::null(),
        };
        match self.dtype {
            DType::Decimal(decimal, n) => Scalar::new(DType::Decimal(*decimal, *n), value),
            _ => unreachable!(),
        }
    }

    /// The type is a legal one of decimals, and the row fits it. It does nothing when the
    /// program runs.
    pub fn law(&self)
        ensures kind { IsTrue (is_decimal (decimal_term self.now).dtype) }
        ensures legal { Legal (decimal_term self.now).dtype }
        ensures fits { Fits (decimal_term self.now).dtype (decimal_term self.now).row }
    {
        self.dtype.law();
    }
}

/// The decimal of which these are the bytes, the lowest first, in the width of so many.
fn decimal_of_bytes(bytes: &[u8]) -> Option<DecimalValue>
    ensures number { option_map decimal_number result ≡ number_of_bytes bytes.now }
    ensures width { IfSome result (λ v. width_bits (width_of v) ≡ length bytes.now * 8) }
{
    match bytes.len() {
        1 => i8::try_from_le_bytes(bytes).ok().map(DecimalValue::I8),
        2 => i16::try_from_le_bytes(bytes).ok().map(DecimalValue::I16),
        4 => i32::try_from_le_bytes(bytes).ok().map(DecimalValue::I32),
        8 => i64::try_from_le_bytes(bytes).ok().map(DecimalValue::I64),
        16 => i128::try_from_le_bytes(bytes).ok().map(DecimalValue::I128),
        _ => None,
    }
}

impl Scalar {
    ghost use Rattle.std.specs.Prelude.{Some, None, if◌then◌else◌};
    ghost use Rattle.vortex_scalar.specs.Views.{decimal_term};

    /// The view of a decimal, and none of a scalar of another type.
    pub fn as_decimal_opt(&self) -> Option<DecimalScalar<'_>>
        ensures { option_map decimal_term result
            ≡ (if is_decimal self.now.dtype then Some self.now else None) }
    {
        self.law();
        DecimalScalar::try_new(self.dtype(), self.value()).ok()
    }

    /// The view of a decimal.
    pub fn as_decimal(&self) -> DecimalScalar<'_>
        requires { IsTrue (is_decimal self.now.dtype) }
        ensures { decimal_term result ≡ self.now }
    {
        self.as_decimal_opt().unwrap()
    }
}
