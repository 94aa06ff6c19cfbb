//! Values that may be null.

ghost use Rattle.std.specs.Prelude.{◌≡◌, true, IfOk, IsOkUnless, unwrap_or};
ghost use Rattle.std.specs.Option.{option_map};
ghost use Rattle.vortex_terms.specs.Row.{null_row};
ghost use Rattle.vortex_terms.specs.Nullability.{with_nullability};
ghost use Rattle.vortex_scalar.specs.Made.{typed};
ghost use Rattle.vortex_convert.specs.Conversions.{optional};
ghost use Rattle.vortex_convert.specs.Refused.{optional_refused};
ghost use Rattle.vortex_convert.specs.Kept.{optional_taken, optional_either, optional_kept};

use crate::native_scalar::NativeScalar;
use std::alloc::Global;
use vortex_scalar::{Scalar, ScalarError};
use vortex_types::DType;

/// The scalar of a value or of null, of the nullable type of `T`.
pub fn from_option<T: NativeScalar>(alloc: Global, value: Option<T>) -> Result<Scalar, ScalarError>
    ensures scalar { let t = with_nullability T.term true in
        IfOk result (λ s. s ≡ typed t (unwrap_or (option_map T.row_of value) null_row)) }
    ensures memory { IsOkUnless result ScalarError.OutOfMemory }
{
    match value {
        Some(value) => value.into_scalar(alloc)?.into_nullable(alloc),
        None => Scalar::null_typed::<T>(alloc),
    }
}

impl<T: NativeScalar> NativeScalar for Option<T> {
    ghost row_of = { λ o. unwrap_or (option_map T.row_of o) null_row };

    ghost takes = { T.takes };

    ghost reads = { optional T.takes T.reads };

    fn takes(dtype: &DType) -> bool {
        T::takes(dtype)
    }

    fn into_scalar(self, alloc: Global) -> Result<Scalar, ScalarError> {
        from_option(alloc, self)
    }

    fn from_scalar(alloc: Global, scalar: &Scalar) -> Result<Option<T>, ScalarError> {
        if !T::takes(scalar.dtype()) {
            return Err(ScalarError::WrongType);
        }
        if scalar.is_null() {
            return Ok(None);
        }
        Ok(Some(T::from_scalar(alloc, scalar)?))
    }

    ghost refused = { optional_refused T.takes T.reads };

    ghost own_taken = { optional_taken T.takes T.term T.either_taken T.own_taken };

    ghost either_taken = { T.either_taken };

    ghost either = { optional_either T.takes T.reads T.either_taken T.either };

    ghost kept = { optional_kept
        T.takes T.reads T.term T.row_of T.either_taken T.own_taken T.either T.kept };
}
