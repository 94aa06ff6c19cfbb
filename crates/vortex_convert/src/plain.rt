//! Truth values of scalars, and nulls.

ghost use Rattle.std.specs.Prelude.{◌≡◌};
ghost use Rattle.vortex_convert.specs.Conversions.{truth_in, unit_in, not_null};

use vortex_scalar::{Scalar, ScalarError};

/// The truth value of a scalar of Bool. Another type is a WrongType, and null is IsNull.
pub fn to_bool(scalar: &Scalar) -> Result<bool, ScalarError>
    ensures { result ≡ not_null (truth_in scalar.now) }
{
    match to_bool_opt(scalar)? {
        Some(value) => Ok(value),
        None => Err(ScalarError::IsNull),
    }
}

/// The truth value of a scalar of Bool, none for null. Another type is a WrongType.
pub fn to_bool_opt(scalar: &Scalar) -> Result<Option<bool>, ScalarError>
    ensures { result ≡ truth_in scalar.now }
{
    match scalar.as_bool_opt() {
        Some(truth) => Ok(truth.value()),
        None => Err(ScalarError::WrongType),
    }
}

/// Nothing, of a null of whatever type. Every other scalar is a WrongType.
pub fn to_unit(scalar: &Scalar) -> Result<(), ScalarError>
    ensures { result ≡ unit_in scalar.now }
{
    if scalar.is_null() {
        Ok(())
    } else {
        Err(ScalarError::WrongType)
    }
}
