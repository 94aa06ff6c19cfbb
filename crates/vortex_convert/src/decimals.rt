//! Decimals of scalars.

ghost use Rattle.std.specs.Option.{option_map};
ghost use Rattle.vortex_value.specs.DecimalValue.{decimal_number};
ghost use Rattle.vortex_convert.specs.Conversions.{Tells, decimal_in, not_null};

use vortex_scalar::{Scalar, ScalarError};
use vortex_value::DecimalValue;

/// The number of a scalar of Decimal, without the point; its width is free. Another type is a
/// WrongType, and null is IsNull.
pub fn to_decimal(scalar: &Scalar) -> Result<DecimalValue, ScalarError>
    ensures { Tells decimal_number result (not_null (decimal_in scalar.now)) }
{
    match to_decimal_opt(scalar)? {
        Some(value) => Ok(value),
        None => Err(ScalarError::IsNull),
    }
}

/// The number of a scalar of Decimal, without the point, none for null; its width is free.
/// Another type is a WrongType.
pub fn to_decimal_opt(scalar: &Scalar) -> Result<Option<DecimalValue>, ScalarError>
    ensures { Tells (option_map decimal_number) result (decimal_in scalar.now) }
{
    match scalar.as_decimal_opt() {
        Some(decimal) => Ok(decimal.decimal_value()),
        None => Err(ScalarError::WrongType),
    }
}
