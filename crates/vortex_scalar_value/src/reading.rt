//! Values read from messages.

ghost use Rattle.std.specs.Prelude.{◌≡◌};
ghost use Rattle.vortex_wire.specs.Field.{field_of};
ghost use Rattle.vortex_scalar_value.specs.Reading.{inside_value, list_in, member_in};
ghost use Rattle.vortex_scalar_value.specs.Reading.{text_in, value_in, value_of_message, varint_value};
ghost use Rattle.vortex_scalar_value.specs.Standing.{Finds, IsReadValue};
ghost use Rattle.vortex_scalar_value.specs.ValueMessage.{from_zigzag};

use crate::error::ScalarError;
use crate::scalar_value::ScalarValue;
use crate::schema::{
    BOOL, BYTES, FIRST_MEMBER, INT64, LAST_MEMBER, LIST, LIST_VALUES, NULL, STRING, UINT64,
};
use std::alloc::Global;
use vortex_buffer::{BufferString, ByteBuffer};
use vortex_value::PValue;
use vortex_wire::{Fields, WireField, WireValue, only_field};

/// How deep a value nests at most.
pub(crate) const MOST_LEVELS: usize = 128;

impl ScalarValue {
    /// The value of a message, of 128 levels at most. Malformed where the bytes are the message of
    /// no such value. Bytes and texts are copied once.
    pub fn from_protobytes(alloc: Global, bytes: &[u8]) -> Result<ScalarValue, ScalarError>
        ensures { IsReadValue result bytes.now }
    {
        read_value(alloc, bytes, MOST_LEVELS)
    }
}

/// The value of a message, of so many levels at most.
#[cycle(reading)]
#[tactic(auto, using(crate::proofs::Read::none_at_zero, crate::proofs::Read::one_level_less))]
fn read_value(alloc: Global, bytes: &[u8], levels: usize) -> Result<ScalarValue, ScalarError>
    ensures { Finds (λ v. v) result (value_in levels bytes.now) }
{
    if levels == 0 {
        return Err(ScalarError::Malformed);
    }
    read_message(alloc, bytes, levels - 1)
}

/// The value of a message, where those inside a list have so many levels at most.
#[cycle(reading)]
fn read_message(alloc: Global, bytes: &[u8], levels: usize) -> Result<ScalarValue, ScalarError>
    ensures { Finds (λ v. v) result (value_of_message (value_in levels) bytes.now) }
{
    let member = member(bytes)?;
    match member.value {
        WireValue::Varint(n) => read_varint(member.number, n),
        WireValue::Bytes(inside) => read_inside(alloc, member.number, inside, levels),
        WireValue::Eight(_) | WireValue::Four(_) => Err(ScalarError::Malformed),
    }
}

/// The member of the oneof.
#[tactic(auto, unfolding(crate::specs::Reading::member_in))]
fn member(bytes: &[u8]) -> Result<WireField<'_>, ScalarError>
    ensures { Finds field_of result (member_in bytes.now) }
{
    match only_field(bytes, FIRST_MEMBER, LAST_MEMBER) {
        Ok(Some(field)) => Ok(field),
        Ok(None) | Err(_) => Err(ScalarError::Malformed),
    }
}

/// The value of a member that holds a varint.
fn read_varint(number: u32, n: u64) -> Result<ScalarValue, ScalarError>
    ensures { Finds (λ v. v) result (varint_value number n) }
{
    match number {
        NULL => Ok(ScalarValue::null()),
        BOOL => Ok(ScalarValue::from_bool(n != 0)),
        INT64 => Ok(ScalarValue::from_pvalue(PValue::I64(from_zigzag(n)))),
        UINT64 => Ok(ScalarValue::from_pvalue(PValue::U64(n))),
        _ => Err(ScalarError::Malformed),
    }
}

/// The number that is this one in zigzag.
fn from_zigzag(n: u64) -> i64
    ensures { result ≡ from_zigzag n }
{
    let half = (n / 2) as i64;
    if n % 2 == 0 { half } else { -1 - half }
}

/// The value of a member that holds bytes, where those inside a list have so many levels at most.
#[cycle(reading)]
fn read_inside(
    alloc: Global,
    number: u32,
    bytes: &[u8],
    levels: usize,
) -> Result<ScalarValue, ScalarError>
    ensures { Finds (λ v. v) result (inside_value (value_in levels) number bytes.now) }
{
    match number {
        STRING => read_text(alloc, bytes),
        BYTES => ScalarValue::from_bytes(alloc, bytes),
        LIST => read_list(alloc, bytes, levels),
        _ => Err(ScalarError::Malformed),
    }
}

/// A text, copied.
fn read_text(alloc: Global, bytes: &[u8]) -> Result<ScalarValue, ScalarError>
    ensures { Finds (λ v. v) result (text_in bytes.now) }
{
    let Ok(buffer) = ByteBuffer::from_slice(alloc, bytes) else {
        return Err(ScalarError::OutOfMemory);
    };
    match BufferString::try_new(buffer) {
        Ok(text) => Ok(ScalarValue::from_buffer_string(text)),
        Err(_) => Err(ScalarError::Malformed),
    }
}

/// The list in the message of a list, whose values have so many levels at most.
#[cycle(reading)]
fn read_list(alloc: Global, body: &[u8], levels: usize) -> Result<ScalarValue, ScalarError>
    ensures { Finds (λ v. v) result (list_in (value_in levels) body.now) }
{
    let mut values = Vec::new(alloc);
    let mut fields = Fields::new(body);
    while let Some(field) = fields.next_field() {
        match field {
            Err(_) => return Err(ScalarError::Malformed),
            Ok(field) => {
                if field.number == LIST_VALUES {
                    match field.value {
                        WireValue::Bytes(part) => {
                            values.push(read_value(alloc, part, levels)?)?;
                        }
                        _ => return Err(ScalarError::Malformed),
                    }
                }
            }
        }
    }
    ScalarValue::from_list(alloc, values)
}
