//! Values written as messages.

ghost use Rattle.std.specs.Prelude.{◌≡◌, ◌<◌, ◌≤◌, ◌^◌, ◌++◌, length, IfOk, IsOkUnless};
ghost use Rattle.std.specs.Prelude.{nat_le};
ghost use Rattle.vortex_number.specs.WholeKind.{whole_kind};
ghost use Rattle.vortex_value.specs.DecimalValue.{decimal_number, width_of};
ghost use Rattle.vortex_value.specs.PValue.{kind_of, number_of};
ghost use Rattle.vortex_wire.specs.Field.{bytes_field, varint_field};
ghost use Rattle.vortex_wire.specs.Inside.{headed};
ghost use Rattle.vortex_scalar_value.specs.Held.{AreHeld, IsHeld};
ghost use Rattle.vortex_scalar_value.specs.Standing.{IsWrittenValue};
ghost use Rattle.vortex_scalar_value.specs.Value.{decimal_value, value_levels, values_from};
ghost use Rattle.vortex_scalar_value.specs.Value.{values_levels, whole_value};
ghost use Rattle.vortex_scalar_value.specs.ValueBytes.{as_read, value_bytes, values_bytes, zigzag};
ghost use Rattle.vortex_scalar_value.specs.ValueMessage.{IsValueMessage};

use crate::error::ScalarError;
use crate::reading::MOST_LEVELS;
use crate::scalar_value::ScalarValue;
use crate::schema::{BOOL, BYTES, INT64, LIST, LIST_VALUES, NULL, STRING, UINT64};
use crate::value_ref::ValueRef;
use std::alloc::Global;
use vortex_value::{DecimalValue, PValue};
use vortex_wire::Backward;

impl ScalarValue {
    /// The message of the value. TooLarge where it has more than 128 levels.
    pub fn to_protobytes(&self, alloc: Global) -> Result<Vec<u8>, ScalarError>
        ensures written { IsWrittenValue (λ v. v.items) result self.now }

        // What is read of it is the value, but for the widths of numbers, and bytes in place of a
        // decimal.
        ensures read { IfOk result (λ v. IsValueMessage v.items (as_read self.now)) }
        ensures held { IfOk result (λ _. IsHeld self.now) }
    {
        if !nests_within(self, MOST_LEVELS) {
            return Err(ScalarError::TooLarge);
        }
        let message = put_value(Backward::new(alloc), self)?;
        Ok(message.finish())
    }
}

/// Whether the value has so many levels at most.
#[cycle(nesting)]
fn nests_within(value: &ScalarValue, levels: usize) -> bool
    ensures { result ≡ nat_le (value_levels value.now) levels }
{
    if levels == 0 {
        return false;
    }
    match value.value_ref() {
        ValueRef::List(values) => all_nest_within(values, levels - 1),
        _ => true,
    }
}

/// Whether each of the values has so many levels at most.
#[cycle(nesting)]
fn all_nest_within(values: &[ScalarValue], levels: usize) -> bool
    ensures { result ≡ nat_le (values_levels (values_from values.now)) levels }
{
    for value in values {
        if !nests_within(value, levels) {
            return false;
        }
    }
    true
}

/// The message of the value before what is written.
#[cycle(writing)]
fn put_value(out: Backward, value: &ScalarValue) -> Result<Backward, ScalarError>
    ensures written { IfOk result (λ b. b ≡ value_bytes value.now ++ out) }
    ensures held { IfOk result (λ _. IsHeld value.now) }
    ensures memory { IsOkUnless result ScalarError.OutOfMemory }
{
    match value.value_ref() {
        ValueRef::Null => put_number(out, NULL, 0),
        ValueRef::Bool(truth) => put_number(out, BOOL, u64::from(truth)),
        ValueRef::Primitive(number) => put_whole(out, number),
        ValueRef::Decimal(decimal) => put_decimal(out, decimal),
        ValueRef::Buffer(buffer) => put_bytes(out, BYTES, buffer.as_slice()),
        ValueRef::BufferString(text) => put_bytes(out, STRING, text.as_str().as_bytes()),
        ValueRef::List(values) => {
            let before = out.len();
            let inside = put_values(out, values)?;
            put_header(inside, LIST, before)
        }
    }
}

/// The message of a list before what is written.
#[cycle(writing)]
fn put_values(out: Backward, values: &[ScalarValue]) -> Result<Backward, ScalarError>
    ensures written { IfOk result (λ b. b ≡ values_bytes (values_from values.now) ++ out) }
    ensures held { IfOk result (λ _. AreHeld (values_from values.now)) }
    ensures memory { IsOkUnless result ScalarError.OutOfMemory }
{
    let mut out = out;
    for i in (0..values.len()).rev() {
        let before = out.len();
        let inside = put_value(out, &values[i])?;
        out = put_header(inside, LIST_VALUES, before)?;
    }
    Ok(out)
}

/// What was written since there were `before` bytes, as a field of this number.
fn put_header(out: Backward, number: u32, before: usize) -> Result<Backward, ScalarError>
    requires some { 0 < number }
    requires most { number < 2 ^ 29 }
    requires within { before ≤ length out }
    ensures written { IfOk result (λ b. b ≡ headed number before out) }
    ensures memory { IsOkUnless result ScalarError.OutOfMemory }
{
    Ok(out.with_header(number, before)?)
}

fn put_number(out: Backward, number: u32, n: u64) -> Result<Backward, ScalarError>
    requires some { 0 < number }
    requires most { number < 2 ^ 29 }
    ensures written { IfOk result (λ b. b ≡ varint_field number n ++ out) }
    ensures memory { IsOkUnless result ScalarError.OutOfMemory }
{
    Ok(out.with_varint_field(number, n)?)
}

fn put_bytes(out: Backward, number: u32, bytes: &[u8]) -> Result<Backward, ScalarError>
    requires some { 0 < number }
    requires most { number < 2 ^ 29 }
    ensures written { IfOk result (λ b. b ≡ bytes_field number bytes.now ++ out) }
    ensures memory { IsOkUnless result ScalarError.OutOfMemory }
{
    Ok(out.with_bytes_field(number, bytes)?)
}

/// A whole number, by its sign.
fn put_whole(out: Backward, number: PValue) -> Result<Backward, ScalarError>
    ensures written { let value = whole_value (whole_kind (kind_of number)) (number_of number) in
        IfOk result (λ b. b ≡ value_bytes value ++ out) }
    ensures held { IsHeld (whole_value (whole_kind (kind_of number)) (number_of number)) }
    ensures memory { IsOkUnless result ScalarError.OutOfMemory }
{
    match number {
        PValue::U8(n) => put_number(out, UINT64, u64::from(n)),
        PValue::U16(n) => put_number(out, UINT64, u64::from(n)),
        PValue::U32(n) => put_number(out, UINT64, u64::from(n)),
        PValue::U64(n) => put_number(out, UINT64, n),
        PValue::I8(n) => put_number(out, INT64, zigzag(i64::from(n))),
        PValue::I16(n) => put_number(out, INT64, zigzag(i64::from(n))),
        PValue::I32(n) => put_number(out, INT64, zigzag(i64::from(n))),
        PValue::I64(n) => put_number(out, INT64, zigzag(n)),
    }
}

/// The number in zigzag.
fn zigzag(n: i64) -> u64
    ensures { result ≡ zigzag n }
{
    if n >= 0 {
        n as u64 * 2
    } else {
        (-1 - n) as u64 * 2 + 1
    }
}

/// A decimal, as its bytes.
fn put_decimal(out: Backward, decimal: DecimalValue) -> Result<Backward, ScalarError>
    ensures written { let value = decimal_value (width_of decimal) (decimal_number decimal) in
        IfOk result (λ b. b ≡ value_bytes value ++ out) }
    ensures held { IsHeld (decimal_value (width_of decimal) (decimal_number decimal)) }
    ensures memory { IsOkUnless result ScalarError.OutOfMemory }
{
    match decimal {
        DecimalValue::I8(n) => put_bytes(out, BYTES, &n.to_le_bytes()),
        DecimalValue::I16(n) => put_bytes(out, BYTES, &n.to_le_bytes()),
        DecimalValue::I32(n) => put_bytes(out, BYTES, &n.to_le_bytes()),
        DecimalValue::I64(n) => put_bytes(out, BYTES, &n.to_le_bytes()),
        DecimalValue::I128(n) => put_bytes(out, BYTES, &n.to_le_bytes()),
    }
}
