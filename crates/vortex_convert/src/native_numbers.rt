//! Whole numbers as rows.

ghost use Rattle.std.specs.Prelude.{◌≡◌, pos, refl};
ghost use Rattle.vortex_terms.specs.Term.{unsigned_8, unsigned_16, unsigned_32, unsigned_64};
ghost use Rattle.vortex_terms.specs.Term.{signed_8, signed_16, signed_32, signed_64};
ghost use Rattle.vortex_terms.specs.Row.{whole_row};
ghost use Rattle.vortex_number.specs.WholeKind.{whole_kind};
ghost use Rattle.vortex_types.specs.DTypes.{term_of};
ghost use Rattle.vortex_convert.specs.Conversions.{is_whole, whole_in, row_in};
ghost use Rattle.vortex_convert.specs.Refused.{whole_refused};
ghost use Rattle.vortex_convert.specs.Kept.{whole_taken, whole_either};

use crate::native_scalar::NativeScalar;
use crate::numbers::{to_i8, to_i16, to_i32, to_i64, to_u8, to_u16, to_u32, to_u64};
use crate::scalars::from_native;
use std::alloc::Global;
use vortex_scalar::{Scalar, ScalarError};
use vortex_types::DType;
use vortex_value::NativePType;

/// Whether the type is that of the numbers of `T`.
fn is_native<T: NativePType>(dtype: &DType) -> bool
    ensures { result ≡ is_whole (whole_kind T.PTYPE) (term_of dtype.now) }
{
    match dtype {
        DType::Primitive(ptype, _) => *ptype == T::PTYPE,
        _ => false,
    }
}

impl NativeScalar for u8 {
    ghost row_of = { λ n. whole_row (pos n) };

    ghost takes = { is_whole unsigned_8 };

    ghost reads = { row_in whole_row (whole_in unsigned_8) };

    fn takes(dtype: &DType) -> bool {
        is_native::<u8>(dtype)
    }

    fn into_scalar(self, _alloc: Global) -> Result<Scalar, ScalarError> {
        Ok(from_native(self))
    }

    fn from_scalar(_alloc: Global, scalar: &Scalar) -> Result<u8, ScalarError> {
        to_u8(scalar)
    }

    ghost refused = { whole_refused unsigned_8 };

    ghost own_taken = { refl };

    ghost either_taken = { whole_taken unsigned_8 };

    ghost either = { whole_either unsigned_8 };

    ghost kept = { λ _. refl };
}

impl NativeScalar for u16 {
    ghost row_of = { λ n. whole_row (pos n) };

    ghost takes = { is_whole unsigned_16 };

    ghost reads = { row_in whole_row (whole_in unsigned_16) };

    fn takes(dtype: &DType) -> bool {
        is_native::<u16>(dtype)
    }

    fn into_scalar(self, _alloc: Global) -> Result<Scalar, ScalarError> {
        Ok(from_native(self))
    }

    fn from_scalar(_alloc: Global, scalar: &Scalar) -> Result<u16, ScalarError> {
        to_u16(scalar)
    }

    ghost refused = { whole_refused unsigned_16 };

    ghost own_taken = { refl };

    ghost either_taken = { whole_taken unsigned_16 };

    ghost either = { whole_either unsigned_16 };

    ghost kept = { λ _. refl };
}

impl NativeScalar for u32 {
    ghost row_of = { λ n. whole_row (pos n) };

    ghost takes = { is_whole unsigned_32 };

    ghost reads = { row_in whole_row (whole_in unsigned_32) };

    fn takes(dtype: &DType) -> bool {
        is_native::<u32>(dtype)
    }

    fn into_scalar(self, _alloc: Global) -> Result<Scalar, ScalarError> {
        Ok(from_native(self))
    }

    fn from_scalar(_alloc: Global, scalar: &Scalar) -> Result<u32, ScalarError> {
        to_u32(scalar)
    }

    ghost refused = { whole_refused unsigned_32 };

    ghost own_taken = { refl };

    ghost either_taken = { whole_taken unsigned_32 };

    ghost either = { whole_either unsigned_32 };

    ghost kept = { λ _. refl };
}

impl NativeScalar for u64 {
    ghost row_of = { λ n. whole_row (pos n) };

    ghost takes = { is_whole unsigned_64 };

    ghost reads = { row_in whole_row (whole_in unsigned_64) };

    fn takes(dtype: &DType) -> bool {
        is_native::<u64>(dtype)
    }

    fn into_scalar(self, _alloc: Global) -> Result<Scalar, ScalarError> {
        Ok(from_native(self))
    }

    fn from_scalar(_alloc: Global, scalar: &Scalar) -> Result<u64, ScalarError> {
        to_u64(scalar)
    }

    ghost refused = { whole_refused unsigned_64 };

    ghost own_taken = { refl };

    ghost either_taken = { whole_taken unsigned_64 };

    ghost either = { whole_either unsigned_64 };

    ghost kept = { λ _. refl };
}

impl NativeScalar for i8 {
    ghost row_of = { whole_row };

    ghost takes = { is_whole signed_8 };

    ghost reads = { row_in whole_row (whole_in signed_8) };

    fn takes(dtype: &DType) -> bool {
        is_native::<i8>(dtype)
    }

    fn into_scalar(self, _alloc: Global) -> Result<Scalar, ScalarError> {
        Ok(from_native(self))
    }

    fn from_scalar(_alloc: Global, scalar: &Scalar) -> Result<i8, ScalarError> {
        to_i8(scalar)
    }

    ghost refused = { whole_refused signed_8 };

    ghost own_taken = { refl };

    ghost either_taken = { whole_taken signed_8 };

    ghost either = { whole_either signed_8 };

    ghost kept = { λ _. refl };
}

impl NativeScalar for i16 {
    ghost row_of = { whole_row };

    ghost takes = { is_whole signed_16 };

    ghost reads = { row_in whole_row (whole_in signed_16) };

    fn takes(dtype: &DType) -> bool {
        is_native::<i16>(dtype)
    }

    fn into_scalar(self, _alloc: Global) -> Result<Scalar, ScalarError> {
        Ok(from_native(self))
    }

    fn from_scalar(_alloc: Global, scalar: &Scalar) -> Result<i16, ScalarError> {
        to_i16(scalar)
    }

    ghost refused = { whole_refused signed_16 };

    ghost own_taken = { refl };

    ghost either_taken = { whole_taken signed_16 };

    ghost either = { whole_either signed_16 };

    ghost kept = { λ _. refl };
}

impl NativeScalar for i32 {
    ghost row_of = { whole_row };

    ghost takes = { is_whole signed_32 };

    ghost reads = { row_in whole_row (whole_in signed_32) };

    fn takes(dtype: &DType) -> bool {
        is_native::<i32>(dtype)
    }

    fn into_scalar(self, _alloc: Global) -> Result<Scalar, ScalarError> {
        Ok(from_native(self))
    }

    fn from_scalar(_alloc: Global, scalar: &Scalar) -> Result<i32, ScalarError> {
        to_i32(scalar)
    }

    ghost refused = { whole_refused signed_32 };

    ghost own_taken = { refl };

    ghost either_taken = { whole_taken signed_32 };

    ghost either = { whole_either signed_32 };

    ghost kept = { λ _. refl };
}

impl NativeScalar for i64 {
    ghost row_of = { whole_row };

    ghost takes = { is_whole signed_64 };

    ghost reads = { row_in whole_row (whole_in signed_64) };

    fn takes(dtype: &DType) -> bool {
        is_native::<i64>(dtype)
    }

    fn into_scalar(self, _alloc: Global) -> Result<Scalar, ScalarError> {
        Ok(from_native(self))
    }

    fn from_scalar(_alloc: Global, scalar: &Scalar) -> Result<i64, ScalarError> {
        to_i64(scalar)
    }

    ghost refused = { whole_refused signed_64 };

    ghost own_taken = { refl };

    ghost either_taken = { whole_taken signed_64 };

    ghost either = { whole_either signed_64 };

    ghost kept = { λ _. refl };
}
