//! Scalars as messages.

ghost use Rattle.std.specs.Prelude.{◌≡◌, ◌≤◌, ◌++◌, Ok, IfOk, IsOkUnless};
ghost use Rattle.vortex_wire.specs.Field.{bytes_field};
ghost use Rattle.vortex_types.specs.DTypes.{term_of};
ghost use Rattle.vortex_scalar_value.specs.Held.{IsHeld};
ghost use Rattle.vortex_scalar_value.specs.Value.{value_levels};
ghost use Rattle.vortex_scalar_value.specs.ValueBytes.{value_bytes};
ghost use Rattle.vortex_scalar.specs.ScalarMessage.{HoldsType, HoldsValue};
ghost use Rattle.vortex_scalar.specs.ScalarMessage.{IsReadScalar, WritesScalar};
ghost use Rattle.vortex_scalar.specs.inner.PartAnswers.{IsReadPart, IsTypeWritten};

use crate::scalar::Scalar;
use crate::schema::{SCALAR_DTYPE, SCALAR_VALUE};
use std::alloc::Global;
use vortex_names::DTypeError;
use vortex_scalar_value::{ScalarError, ScalarValue};
use vortex_types::DType;
use vortex_wire::{message_field, put_bytes};

impl Scalar {
    /// The scalar of a Protocol Buffers message. Malformed where no type within the limits or no
    /// value of at most 128 levels stands in it, and DoesNotFit where the value does not fit.
    pub fn from_proto(alloc: Global, bytes: &[u8]) -> Result<Scalar, ScalarError>
        ensures { IsReadScalar result bytes.now }
    {
        let dtype = read_dtype(alloc, bytes)?;
        let value = read_value(alloc, bytes)?;
        Scalar::try_new(dtype, value)
    }

    /// The bytes of a Protocol Buffers message that stands for the scalar. TooLarge where the type
    /// is outside the limits. Equal scalars may be written otherwise, since the form in which a
    /// value is kept is free.
    pub fn to_proto(&self, alloc: Global) -> Result<Vec<u8>, ScalarError>
        ensures written { WritesScalar (λ v. v.items) result self.now }
        ensures read { IfOk result (λ v. IsReadScalar (Ok self.now) v.items) }
    {
        let (dtype, value) = self.parts();
        let of_type = dtype_message(alloc, dtype)?;
        let of_value = value_message(alloc, value)?;
        both_parts(alloc, of_type.as_slice(), of_value.as_slice())
    }
}

/// The type in the message of a scalar.
fn read_dtype(alloc: Global, bytes: &[u8]) -> Result<DType, ScalarError>
    ensures { IsReadPart term_of result (HoldsType bytes.now) }
{
    let part = message_field(bytes, SCALAR_DTYPE)?;
    match DType::from_proto(alloc, part) {
        Ok(dtype) => Ok(dtype),
        Err(DTypeError::OutOfMemory) => Err(ScalarError::OutOfMemory),
        Err(_) => Err(ScalarError::Malformed),
    }
}

/// The value in the message of a scalar.
fn read_value(alloc: Global, bytes: &[u8]) -> Result<ScalarValue, ScalarError>
    ensures { IsReadPart (λ v. v) result (HoldsValue bytes.now) }
{
    let part = message_field(bytes, SCALAR_VALUE)?;
    ScalarValue::from_protobytes(alloc, part)
}

/// The message of a type.
fn dtype_message(alloc: Global, dtype: &DType) -> Result<Vec<u8>, ScalarError>
    ensures { IsTypeWritten result (term_of dtype.now) }
{
    match dtype.to_proto(alloc) {
        Ok(message) => Ok(message),
        Err(DTypeError::OutOfMemory) => Err(ScalarError::OutOfMemory),
        Err(_) => Err(ScalarError::TooLarge),
    }
}

/// The message of a value.
fn value_message(alloc: Global, value: &ScalarValue) -> Result<Vec<u8>, ScalarError>
    requires { value_levels value.now ≤ 128 }
    ensures written { IfOk result (λ v. v.items ≡ value_bytes value.now) }
    ensures held { IfOk result (λ _. IsHeld value.now) }
    ensures memory { IsOkUnless result ScalarError.OutOfMemory }
{
    match value.to_protobytes(alloc) {
        Ok(message) => Ok(message),
        Err(ScalarError::OutOfMemory) => Err(ScalarError::OutOfMemory),
        Err(_) => unreachable!(),
    }
}

/// The message with these messages of a type and of a value.
fn both_parts(alloc: Global, dtype: &[u8], value: &[u8]) -> Result<Vec<u8>, ScalarError>
    ensures written { IfOk result (λ v. v.items
        ≡ bytes_field SCALAR_DTYPE dtype.now ++ bytes_field SCALAR_VALUE value.now) }
    ensures memory { IsOkUnless result ScalarError.OutOfMemory }
{
    let mut message = Vec::new(alloc);
    put_bytes(&mut message, SCALAR_DTYPE, dtype)?;
    put_bytes(&mut message, SCALAR_VALUE, value)?;
    Ok(message)
}
