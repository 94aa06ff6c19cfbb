//! The types of native values.

ghost use Rattle.std.specs.Prelude.{◌≡◌, true, false, IfOk, IsOkUnless};
ghost use Rattle.vortex_terms.specs.Term.{Term, boolean, primitive, utf8, binary, list};
ghost use Rattle.vortex_terms.specs.Term.{unsigned_8, unsigned_16, unsigned_32, unsigned_64};
ghost use Rattle.vortex_terms.specs.Term.{signed_8, signed_16, signed_32, signed_64};
ghost use Rattle.vortex_terms.specs.Row.{null_row};
ghost use Rattle.vortex_terms.specs.Nullability.{with_nullability};
ghost use Rattle.vortex_types.specs.DTypes.{term_of};
ghost use Rattle.vortex_scalar.specs.Made.{typed};

use crate::scalar::Scalar;
use std::alloc::Global;
use vortex_buffer::{BufferString, ByteBuffer};
use vortex_names::Nullability;
use vortex_number::PType;
use vortex_scalar_value::ScalarError;
use vortex_types::DType;

/// A native type whose values are rows of a type.
pub trait ScalarType {
    // The type.
    ghost term: { Term };

    /// The type of the values, nullable for an `Option` alone.
    fn dtype(alloc: Global) -> Result<DType, ScalarError>
        ensures term { IfOk result (λ t. term_of t ≡ term) }
        ensures memory { IsOkUnless result ScalarError.OutOfMemory };
}

impl Scalar {
    /// Null of the nullable type of the values of `T`.
    pub fn null_typed<T: ScalarType>(alloc: Global) -> Result<Scalar, ScalarError>
        ensures scalar { let t = with_nullability T.term true in
            IfOk result (λ s. s ≡ typed t null_row) }
        ensures memory { IsOkUnless result ScalarError.OutOfMemory }
    {
        let dtype = T::dtype(alloc)?;
        match dtype.as_nullable(alloc) {
            Ok(dtype) => Ok(Scalar::null(dtype)),
            Err(_) => Err(ScalarError::OutOfMemory),
        }
    }
}

impl ScalarType for u8 {
    ghost term = { primitive unsigned_8 false };

    fn dtype(_alloc: Global) -> Result<DType, ScalarError> {
        Ok(DType::from_ptype(PType::U8))
    }
}

impl ScalarType for u16 {
    ghost term = { primitive unsigned_16 false };

    fn dtype(_alloc: Global) -> Result<DType, ScalarError> {
        Ok(DType::from_ptype(PType::U16))
    }
}

impl ScalarType for u32 {
    ghost term = { primitive unsigned_32 false };

    fn dtype(_alloc: Global) -> Result<DType, ScalarError> {
        Ok(DType::from_ptype(PType::U32))
    }
}

impl ScalarType for u64 {
    ghost term = { primitive unsigned_64 false };

    fn dtype(_alloc: Global) -> Result<DType, ScalarError> {
        Ok(DType::from_ptype(PType::U64))
    }
}

impl ScalarType for i8 {
    ghost term = { primitive signed_8 false };

    fn dtype(_alloc: Global) -> Result<DType, ScalarError> {
        Ok(DType::from_ptype(PType::I8))
    }
}

impl ScalarType for i16 {
    ghost term = { primitive signed_16 false };

    fn dtype(_alloc: Global) -> Result<DType, ScalarError> {
        Ok(DType::from_ptype(PType::I16))
    }
}

impl ScalarType for i32 {
    ghost term = { primitive signed_32 false };

    fn dtype(_alloc: Global) -> Result<DType, ScalarError> {
        Ok(DType::from_ptype(PType::I32))
    }
}

impl ScalarType for i64 {
    ghost term = { primitive signed_64 false };

    fn dtype(_alloc: Global) -> Result<DType, ScalarError> {
        Ok(DType::from_ptype(PType::I64))
    }
}

impl ScalarType for bool {
    ghost term = { boolean false };

    fn dtype(_alloc: Global) -> Result<DType, ScalarError> {
        Ok(DType::Bool(Nullability::NonNullable))
    }
}

impl ScalarType for String {
    ghost term = { utf8 false };

    fn dtype(_alloc: Global) -> Result<DType, ScalarError> {
        Ok(DType::Utf8(Nullability::NonNullable))
    }
}

impl ScalarType for BufferString {
    ghost term = { utf8 false };

    fn dtype(_alloc: Global) -> Result<DType, ScalarError> {
        Ok(DType::Utf8(Nullability::NonNullable))
    }
}

impl ScalarType for ByteBuffer {
    ghost term = { binary false };

    fn dtype(_alloc: Global) -> Result<DType, ScalarError> {
        Ok(DType::Binary(Nullability::NonNullable))
    }
}

impl<T: ScalarType> ScalarType for Option<T> {
    ghost term = { with_nullability T.term true };

    fn dtype(alloc: Global) -> Result<DType, ScalarError> {
        let dtype = T::dtype(alloc)?;
        match dtype.as_nullable(alloc) {
            Ok(dtype) => Ok(dtype),
            Err(_) => Err(ScalarError::OutOfMemory),
        }
    }
}

impl<T: ScalarType> ScalarType for Vec<T> {
    ghost term = { list T.term false };

    fn dtype(alloc: Global) -> Result<DType, ScalarError> {
        let element = T::dtype(alloc)?;
        match DType::list(alloc, element, Nullability::NonNullable) {
            Ok(dtype) => Ok(dtype),
            Err(_) => Err(ScalarError::OutOfMemory),
        }
    }
}
