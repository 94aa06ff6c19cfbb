//! The bytes of values that are texts or bytes.

ghost use Rattle.std.specs.Prelude.{◌≡◌, IfOk, IfSome, IsOkUnless};
ghost use Rattle.std.specs.Option.{option_copied, option_map};
ghost use Rattle.std.specs.Str.{IsUtf8};
ghost use Rattle.vortex_terms.specs.Row.{bytes_row};
ghost use Rattle.vortex_terms.specs.Order.{row_cmp};
ghost use Rattle.vortex_scalar.specs.ViewRows.{or_null};
ghost use Rattle.vortex_scalar.specs.inner.Parts.{content};

use std::alloc::Global;
use std::cmp::Ordering;
use std::str;
use vortex_buffer::{BufferString, ByteBuffer};
use vortex_scalar_value::{ScalarError, ScalarValue, ValueRef};

/// The bytes of a text or of bytes.
pub(super) fn bytes_in(value: &ScalarValue) -> Option<&[u8]>
    ensures { option_copied result ≡ content value.now }
{
    match value.value_ref() {
        ValueRef::Buffer(bytes) => Some(bytes.as_slice()),
        ValueRef::BufferString(text) => Some(text.as_str().as_bytes()),
        _ => None,
    }
}

/// The same bytes as a text.
pub(super) fn text_in(value: &ScalarValue) -> Option<&str>
    requires { IfSome (content value.now) IsUtf8 }
    ensures { option_copied result ≡ content value.now }
{
    match value.value_ref() {
        ValueRef::Buffer(bytes) => Some(as_text(bytes.as_slice())),
        ValueRef::BufferString(text) => Some(text.as_str()),
        _ => None,
    }
}

/// The same bytes, shared.
pub(super) fn buffer_in(
    alloc: Global,
    value: &ScalarValue,
) -> Result<Option<ByteBuffer>, ScalarError>
    ensures bytes { IfOk result (λ o. option_map (λ b. b.bytes) o ≡ content value.now) }
    ensures memory { IsOkUnless result ScalarError.OutOfMemory }
{
    match value.value_ref() {
        ValueRef::Buffer(bytes) => Ok(Some(shared_bytes(alloc, bytes)?)),
        ValueRef::BufferString(text) => Ok(Some(shared_text(alloc, text)?.into_inner())),
        _ => Ok(None),
    }
}

/// The same bytes as a text, shared.
pub(super) fn string_in(
    alloc: Global,
    value: &ScalarValue,
) -> Result<Option<BufferString>, ScalarError>
    requires { IfSome (content value.now) IsUtf8 }
    ensures text { IfOk result (λ o. option_map (λ s. s.bytes) o ≡ content value.now) }
    ensures memory { IsOkUnless result ScalarError.OutOfMemory }
{
    match value.value_ref() {
        ValueRef::Buffer(bytes) => Ok(Some(as_string(shared_bytes(alloc, bytes)?))),
        ValueRef::BufferString(text) => Ok(Some(shared_text(alloc, text)?)),
        _ => Ok(None),
    }
}

fn shared_bytes(alloc: Global, bytes: &ByteBuffer) -> Result<ByteBuffer, ScalarError>
    ensures bytes { IfOk result (λ b. b ≡ bytes.now) }
    ensures memory { IsOkUnless result ScalarError.OutOfMemory }
{
    match bytes.try_clone(alloc) {
        Ok(bytes) => Ok(bytes),
        Err(_) => Err(ScalarError::OutOfMemory),
    }
}

fn shared_text(alloc: Global, text: &BufferString) -> Result<BufferString, ScalarError>
    ensures text { IfOk result (λ s. s ≡ text.now) }
    ensures memory { IsOkUnless result ScalarError.OutOfMemory }
{
    match text.try_clone(alloc) {
        Ok(text) => Ok(text),
        Err(_) => Err(ScalarError::OutOfMemory),
    }
}

fn as_text(bytes: &[u8]) -> &str
    requires { IsUtf8 bytes.now }
    ensures { result.now ≡ bytes.now }
{
    match str::from_utf8(bytes) {
        Ok(text) => text,
        Err(_) => unreachable!(),
    }
}

fn as_string(bytes: ByteBuffer) -> BufferString
    requires { IsUtf8 bytes.bytes }
    ensures { result ≡ bytes }
{
    match BufferString::try_new(bytes) {
        Ok(text) => text,
        Err(_) => unreachable!(),
    }
}

/// How bytes compare, null first.
pub(super) fn compare_bytes(a: Option<&[u8]>, b: Option<&[u8]>) -> Ordering
    ensures { let x = or_null bytes_row (option_copied a.entry) in
        result ≡ row_cmp x (or_null bytes_row (option_copied b.entry)) }
{
    match (a, b) {
        (None, None) => Ordering::Equal,
        (None, Some(_)) => Ordering::Less,
        (Some(_), None) => Ordering::Greater,
        (Some(a), Some(b)) => a.cmp(b),
    }
}
