//! Texts and bytes of scalars.

ghost use Rattle.std.specs.Option.{option_map};
ghost use Rattle.std.specs.String.{string_bytes};
ghost use Rattle.vortex_scalar.specs.Answers.{Answers};
ghost use Rattle.vortex_convert.specs.Conversions.{text_in, bytes_in, not_null};

use std::alloc::Global;
use vortex_buffer::{BufferString, ByteBuffer};
use vortex_scalar::{Scalar, ScalarError};

/// The text of a scalar of Utf8, copied. Another type is a WrongType, and null is IsNull.
pub fn to_text(alloc: Global, scalar: &Scalar) -> Result<String, ScalarError>
    ensures { Answers string_bytes result (not_null (text_in scalar.now)) }
{
    match to_text_opt(alloc, scalar)? {
        Some(text) => Ok(text),
        None => Err(ScalarError::IsNull),
    }
}

/// The text of a scalar of Utf8, copied, none for null. Another type is a WrongType.
pub fn to_text_opt(alloc: Global, scalar: &Scalar) -> Result<Option<String>, ScalarError>
    ensures { Answers (option_map string_bytes) result (text_in scalar.now) }
{
    let text = match scalar.as_utf8_opt() {
        Some(text) => text,
        None => return Err(ScalarError::WrongType),
    };
    match text.value_ref() {
        Some(text) => Ok(Some(String::from_str(alloc, text)?)),
        None => Ok(None),
    }
}

/// The text of a scalar of Utf8, shared. Another type is a WrongType, and null is IsNull.
pub fn to_buffer_string(alloc: Global, scalar: &Scalar) -> Result<BufferString, ScalarError>
    ensures { Answers (λ s. s.bytes) result (not_null (text_in scalar.now)) }
{
    match to_buffer_string_opt(alloc, scalar)? {
        Some(text) => Ok(text),
        None => Err(ScalarError::IsNull),
    }
}

/// The text of a scalar of Utf8, shared, none for null. Another type is a WrongType.
pub fn to_buffer_string_opt(
    alloc: Global,
    scalar: &Scalar,
) -> Result<Option<BufferString>, ScalarError>
    ensures { Answers (option_map (λ s. s.bytes)) result (text_in scalar.now) }
{
    match scalar.as_utf8_opt() {
        Some(text) => text.value(alloc),
        None => Err(ScalarError::WrongType),
    }
}

/// The bytes of a scalar of Binary, shared. Another type is a WrongType, and null is IsNull.
pub fn to_bytes(alloc: Global, scalar: &Scalar) -> Result<ByteBuffer, ScalarError>
    ensures { Answers (λ b. b.bytes) result (not_null (bytes_in scalar.now)) }
{
    match to_bytes_opt(alloc, scalar)? {
        Some(bytes) => Ok(bytes),
        None => Err(ScalarError::IsNull),
    }
}

/// The bytes of a scalar of Binary, shared, none for null. Another type is a WrongType.
pub fn to_bytes_opt(alloc: Global, scalar: &Scalar) -> Result<Option<ByteBuffer>, ScalarError>
    ensures { Answers (option_map (λ b. b.bytes)) result (bytes_in scalar.now) }
{
    match scalar.as_binary_opt() {
        Some(bytes) => bytes.value(alloc),
        None => Err(ScalarError::WrongType),
    }
}
