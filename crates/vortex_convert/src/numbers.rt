//! Whole numbers of scalars.

ghost use Rattle.std.specs.Prelude.{◌≡◌, pos};
ghost use Rattle.std.specs.Option.{option_map};
ghost use Rattle.vortex_terms.specs.Term.{unsigned_8, unsigned_16, unsigned_32, unsigned_64};
ghost use Rattle.vortex_terms.specs.Term.{signed_8, signed_16, signed_32, signed_64};
ghost use Rattle.vortex_number.specs.WholeKind.{whole_kind};
ghost use Rattle.vortex_convert.specs.Conversions.{Tells, whole_in, any_whole_in};
ghost use Rattle.vortex_convert.specs.Conversions.{not_null, as_length};

use vortex_scalar::{Scalar, ScalarError};
use vortex_types::DType;
use vortex_value::NativePType;

/// The number of a scalar of the kind of `T`, none for null. Another type is a WrongType.
fn to_native_opt<T: NativePType>(scalar: &Scalar) -> Result<Option<T>, ScalarError>
    ensures { Tells (option_map T.number) result (whole_in (whole_kind T.PTYPE) scalar.now) }
{
    match scalar.dtype() {
        DType::Primitive(ptype, _) if *ptype == T::PTYPE => {
            Ok(scalar.as_primitive().typed_value::<T>())
        }
        _ => Err(ScalarError::WrongType),
    }
}

/// The number of a scalar of the kind of `T`. Another type is a WrongType, and null is IsNull.
fn to_native<T: NativePType>(scalar: &Scalar) -> Result<T, ScalarError>
    ensures { Tells T.number result (not_null (whole_in (whole_kind T.PTYPE) scalar.now)) }
{
    match to_native_opt::<T>(scalar)? {
        Some(number) => Ok(number),
        None => Err(ScalarError::IsNull),
    }
}

/// The number of a scalar of U8. Another type is a WrongType, and null is IsNull.
pub fn to_u8(scalar: &Scalar) -> Result<u8, ScalarError>
    ensures { Tells pos result (not_null (whole_in unsigned_8 scalar.now)) }
{
    to_native::<u8>(scalar)
}

/// The number of a scalar of U8, none for null. Another type is a WrongType.
pub fn to_u8_opt(scalar: &Scalar) -> Result<Option<u8>, ScalarError>
    ensures { Tells (option_map pos) result (whole_in unsigned_8 scalar.now) }
{
    to_native_opt::<u8>(scalar)
}

/// The number of a scalar of U16. Another type is a WrongType, and null is IsNull.
pub fn to_u16(scalar: &Scalar) -> Result<u16, ScalarError>
    ensures { Tells pos result (not_null (whole_in unsigned_16 scalar.now)) }
{
    to_native::<u16>(scalar)
}

/// The number of a scalar of U16, none for null. Another type is a WrongType.
pub fn to_u16_opt(scalar: &Scalar) -> Result<Option<u16>, ScalarError>
    ensures { Tells (option_map pos) result (whole_in unsigned_16 scalar.now) }
{
    to_native_opt::<u16>(scalar)
}

/// The number of a scalar of U32. Another type is a WrongType, and null is IsNull.
pub fn to_u32(scalar: &Scalar) -> Result<u32, ScalarError>
    ensures { Tells pos result (not_null (whole_in unsigned_32 scalar.now)) }
{
    to_native::<u32>(scalar)
}

/// The number of a scalar of U32, none for null. Another type is a WrongType.
pub fn to_u32_opt(scalar: &Scalar) -> Result<Option<u32>, ScalarError>
    ensures { Tells (option_map pos) result (whole_in unsigned_32 scalar.now) }
{
    to_native_opt::<u32>(scalar)
}

/// The number of a scalar of U64. Another type is a WrongType, and null is IsNull.
pub fn to_u64(scalar: &Scalar) -> Result<u64, ScalarError>
    ensures { Tells pos result (not_null (whole_in unsigned_64 scalar.now)) }
{
    to_native::<u64>(scalar)
}

/// The number of a scalar of U64, none for null. Another type is a WrongType.
pub fn to_u64_opt(scalar: &Scalar) -> Result<Option<u64>, ScalarError>
    ensures { Tells (option_map pos) result (whole_in unsigned_64 scalar.now) }
{
    to_native_opt::<u64>(scalar)
}

/// The number of a scalar of I8. Another type is a WrongType, and null is IsNull.
pub fn to_i8(scalar: &Scalar) -> Result<i8, ScalarError>
    ensures { Tells (λ z. z) result (not_null (whole_in signed_8 scalar.now)) }
{
    to_native::<i8>(scalar)
}

/// The number of a scalar of I8, none for null. Another type is a WrongType.
pub fn to_i8_opt(scalar: &Scalar) -> Result<Option<i8>, ScalarError>
    ensures { Tells (option_map (λ z. z)) result (whole_in signed_8 scalar.now) }
{
    to_native_opt::<i8>(scalar)
}

/// The number of a scalar of I16. Another type is a WrongType, and null is IsNull.
pub fn to_i16(scalar: &Scalar) -> Result<i16, ScalarError>
    ensures { Tells (λ z. z) result (not_null (whole_in signed_16 scalar.now)) }
{
    to_native::<i16>(scalar)
}

/// The number of a scalar of I16, none for null. Another type is a WrongType.
pub fn to_i16_opt(scalar: &Scalar) -> Result<Option<i16>, ScalarError>
    ensures { Tells (option_map (λ z. z)) result (whole_in signed_16 scalar.now) }
{
    to_native_opt::<i16>(scalar)
}

/// The number of a scalar of I32. Another type is a WrongType, and null is IsNull.
pub fn to_i32(scalar: &Scalar) -> Result<i32, ScalarError>
    ensures { Tells (λ z. z) result (not_null (whole_in signed_32 scalar.now)) }
{
    to_native::<i32>(scalar)
}

/// The number of a scalar of I32, none for null. Another type is a WrongType.
pub fn to_i32_opt(scalar: &Scalar) -> Result<Option<i32>, ScalarError>
    ensures { Tells (option_map (λ z. z)) result (whole_in signed_32 scalar.now) }
{
    to_native_opt::<i32>(scalar)
}

/// The number of a scalar of I64. Another type is a WrongType, and null is IsNull.
pub fn to_i64(scalar: &Scalar) -> Result<i64, ScalarError>
    ensures { Tells (λ z. z) result (not_null (whole_in signed_64 scalar.now)) }
{
    to_native::<i64>(scalar)
}

/// The number of a scalar of I64, none for null. Another type is a WrongType.
pub fn to_i64_opt(scalar: &Scalar) -> Result<Option<i64>, ScalarError>
    ensures { Tells (option_map (λ z. z)) result (whole_in signed_64 scalar.now) }
{
    to_native_opt::<i64>(scalar)
}

/// The number of a scalar of any kind of whole numbers. Another type is a WrongType, null is
/// IsNull, and a number below 0 is OutOfRange.
pub fn to_usize(scalar: &Scalar) -> Result<usize, ScalarError>
    ensures { result ≡ not_null (as_length (any_whole_in scalar.now)) }
{
    match to_usize_opt(scalar)? {
        Some(number) => Ok(number),
        None => Err(ScalarError::IsNull),
    }
}

/// The number of a scalar of any kind of whole numbers, none for null. Another type is a
/// WrongType, and a number below 0 is OutOfRange.
pub fn to_usize_opt(scalar: &Scalar) -> Result<Option<usize>, ScalarError>
    ensures { result ≡ as_length (any_whole_in scalar.now) }
{
    let number = match scalar.as_primitive_opt() {
        Some(number) => number,
        None => return Err(ScalarError::WrongType),
    };
    match number.pvalue() {
        Some(value) => match value.try_usize() {
            Ok(length) => Ok(Some(length)),
            Err(_) => Err(ScalarError::OutOfRange),
        },
        None => Ok(None),
    }
}
