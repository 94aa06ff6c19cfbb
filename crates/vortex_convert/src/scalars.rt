//! Scalars of native values. None is nullable.

ghost use Rattle.std.specs.Prelude.{◌≡◌, pos, false, IfOk, IsOkUnless};
ghost use Rattle.vortex_terms.specs.Term.{unsigned_64, boolean, primitive, decimal, utf8, binary};
ghost use Rattle.vortex_terms.specs.Row.{truth_row, whole_row, bytes_row};
ghost use Rattle.vortex_number.specs.WholeKind.{whole_kind};
ghost use Rattle.vortex_value.specs.DecimalValue.{width_of, decimal_number};
ghost use Rattle.vortex_scalar.specs.Made.{typed};
ghost use Rattle.vortex_convert.specs.Conversions.{width_precision};

use std::alloc::Global;
use vortex_buffer::ByteBuffer;
use vortex_names::{DecimalDType, Nullability};
use vortex_scalar::{Scalar, ScalarError};
use vortex_value::{DecimalValue, DecimalValueType, NativePType};

/// The scalar of a whole number, of the kind of `T`.
pub fn from_native<T: NativePType>(value: T) -> Scalar
    ensures { result ≡ typed (primitive (whole_kind T.PTYPE) false) (whole_row (T.number value)) }
{
    Scalar::primitive(value, Nullability::NonNullable)
}

/// The scalar of a length, of U64.
pub fn from_usize(value: usize) -> Scalar
    ensures { result ≡ typed (primitive unsigned_64 false) (whole_row (pos value)) }
{
    Scalar::primitive(value as u64, Nullability::NonNullable)
}

/// The scalar of a truth value.
pub fn from_bool(value: bool) -> Scalar
    ensures { result ≡ typed (boolean false) (truth_row value) }
{
    Scalar::bool(value, Nullability::NonNullable)
}

/// The scalar of a decimal of scale 0. Its precision is 3, 5, 10, 19 or 38 for 8, 16, 32, 64 or
/// 128 bits.
pub fn from_decimal_value(value: DecimalValue) -> Scalar
    ensures { let t = decimal (width_precision (width_of value)) (pos 0) false in
        result ≡ typed t (whole_row (decimal_number value)) }
{
    let dtype = match value.values_type() {
        DecimalValueType::I8 => DecimalDType::new(3, 0),
        DecimalValueType::I16 => DecimalDType::new(5, 0),
        DecimalValueType::I32 => DecimalDType::new(10, 0),
        DecimalValueType::I64 => DecimalDType::new(19, 0),
        DecimalValueType::I128 => DecimalDType::new(38, 0),
    };
    Scalar::decimal(value, dtype, Nullability::NonNullable)
}

/// The scalar of a text, copied.
pub fn from_text(alloc: Global, text: &str) -> Result<Scalar, ScalarError>
    ensures scalar { IfOk result (λ s. s ≡ typed (utf8 false) (bytes_row text.now)) }
    ensures memory { IsOkUnless result ScalarError.OutOfMemory }
{
    Scalar::utf8(alloc, text, Nullability::NonNullable)
}

/// The scalar of bytes, copied.
pub fn from_bytes(alloc: Global, bytes: &[u8]) -> Result<Scalar, ScalarError>
    ensures scalar { IfOk result (λ s. s ≡ typed (binary false) (bytes_row bytes.now)) }
    ensures memory { IsOkUnless result ScalarError.OutOfMemory }
{
    match ByteBuffer::from_slice(alloc, bytes) {
        Ok(buffer) => Ok(Scalar::binary(buffer, Nullability::NonNullable)),
        Err(_) => Err(ScalarError::OutOfMemory),
    }
}
