//! What the fields of a message hold inside.

ghost use Rattle.std.specs.Prelude.{◌≡◌, ◌<◌, length, IfErr, IfOk, IfSome, Some, is_some};
ghost use Rattle.std.specs.Option.{ok_or, option_copied};
ghost use Rattle.vortex_wire.specs.Field.{fields_of};
ghost use Rattle.vortex_wire.specs.Finds.{Finds, FindsInMemory, all_bytes_of, bytes_of, text_in, then_bytes};
ghost use Rattle.vortex_wire.specs.Inside.{bytes_fields, flag, message, optional_bytes};
ghost use Rattle.vortex_wire.specs.Inside.{singular_i32, singular_text, texts};

use crate::error::WireError;
use crate::field::{Fields, WireValue};
use crate::message::{singular_u32, singular_varint};
use std::alloc::Global;
use std::str;

impl<'a> Fields<'a> {
    /// The bytes in the next field of this number. A field of this number that holds no bytes is
    /// refused.
    fn next_bytes(&mut self, number: u32) -> Result<Option<&'a [u8]>, WireError>
        ensures bytes { bytes_fields number self.old
            ≡ then_bytes result (bytes_fields number self.new) }
        ensures shorter { IfOk result (λ o. IfSome o (λ _. length self.new < length self.old)) }
        ensures malformed { IfErr result (λ e. e ≡ WireError.Malformed) }
    {
        while let Some(field) = self.next_field() {
            match field {
                Err(error) => return Err(error),
                Ok(field) => {
                    if field.number == number {
                        match field.value {
                            WireValue::Bytes(bytes) => return Ok(Some(bytes)),
                            _ => return Err(WireError::Malformed),
                        }
                    }
                }
            }
        }
        Ok(None)
    }

    /// The text in the next field of this number, where one is left. A field of this number that
    /// holds no text is refused.
    #[tactic(auto, using(crate::proofs::BytesFound::no_text_left, crate::proofs::BytesFound::no_texts))]
    fn next_text(&mut self, number: u32) -> Result<Option<&'a str>, WireError>
        ensures texts { texts number self.old ≡ then_bytes result (texts number self.new) }
        ensures shorter { IfOk result (λ o. IfSome o (λ _. length self.new < length self.old)) }
        ensures malformed { IfErr result (λ e. e ≡ WireError.Malformed) }
    {
        match self.next_bytes(number)? {
            Some(bytes) => match text_of(bytes) {
                Ok(text) => Ok(Some(text)),
                Err(error) => Err(error),
            },
            None => Ok(None),
        }
    }
}

/// The bytes as a text, which is UTF-8.
#[tactic(auto, using(crate::proofs::BytesFound::text_here, crate::proofs::BytesFound::text_fault))]
pub fn text_of(bytes: &[u8]) -> Result<&str, WireError>
    ensures { Finds bytes_of result (text_in bytes.now) }
{
    match str::from_utf8(bytes) {
        Ok(text) => Ok(text),
        Err(_) => Err(WireError::Malformed),
    }
}

/// The bytes in the fields of this number, in order.
pub fn bytes_fields(alloc: Global, b: &[u8], number: u32) -> Result<Vec<&[u8]>, WireError>
    ensures { FindsInMemory (λ v. all_bytes_of v.items) result (bytes_fields number b.now) }
{
    let mut found = Vec::new(alloc);
    let mut fields = Fields::new(b);
    while let Some(bytes) = fields.next_bytes(number)? {
        found.push(bytes)?;
    }
    Ok(found)
}

/// The texts in the fields of this number, in order.
pub fn texts(alloc: Global, b: &[u8], number: u32) -> Result<Vec<&str>, WireError>
    ensures { FindsInMemory (λ v. all_bytes_of v.items) result (texts number b.now) }
{
    let mut found = Vec::new(alloc);
    let mut fields = Fields::new(b);
    while let Some(text) = fields.next_text(number)? {
        found.push(text)?;
    }
    Ok(found)
}

/// The text of this number, the last where there are several, and the empty one where there is
/// none.
pub fn singular_text(b: &[u8], number: u32) -> Result<&str, WireError>
    ensures { Finds bytes_of result (singular_text number b.now) }
{
    let mut last = None;
    let mut fields = Fields::new(b);
    while let Some(text) = fields.next_text(number)? {
        last = Some(text);
    }
    Ok(last.unwrap_or(""))
}

/// The bytes of this number, the last where there are several.
pub fn optional_bytes(b: &[u8], number: u32) -> Result<Option<&[u8]>, WireError>
    ensures { Finds option_copied result (optional_bytes number b.now) }
{
    let mut last = None;
    let mut fields = Fields::new(b);
    while let Some(bytes) = fields.next_bytes(number)? {
        last = Some(bytes);
    }
    Ok(last)
}

/// The message of this number. One that is missing, or there twice, is refused.
pub fn message_field(b: &[u8], number: u32) -> Result<&[u8], WireError>
    ensures { Finds bytes_of result (message number b.now) }
{
    let mut only = None;
    let mut fields = Fields::new(b);
    while let Some(bytes) = fields.next_bytes(number)? {
        if only.is_some() {
            return Err(WireError::Malformed);
        }
        only = Some(bytes);
    }
    only.ok_or(WireError::Malformed)
}

/// The flag of this number, which is false where the field is missing.
#[tactic(auto, unfolding(crate::specs::Inside::flag))]
pub fn flag(b: &[u8], number: u32) -> Result<bool, WireError>
    ensures { result ≡ ok_or (flag number b.now) WireError.Malformed }
{
    let found = singular_varint(b, number)?.unwrap_or(0);
    Ok(found != 0)
}

/// The signed number of this number: the low 32 bits of its varint, 0 where the field is missing.
#[tactic(auto, unfolding(crate::specs::Inside::singular_i32))]
pub fn singular_i32(b: &[u8], number: u32) -> Result<i32, WireError>
    ensures { result ≡ ok_or (singular_i32 number b.now) WireError.Malformed }
{
    let found = singular_u32(b, number)?;
    Ok(found.cast_signed())
}

/// Whether the bytes are a message: fields, one after another.
pub fn is_message(b: &[u8]) -> bool
    ensures { result ≡ is_some (fields_of b.now) }
{
    let mut fields = Fields::new(b);
    while let Some(field) = fields.next_field() {
        if field.is_err() {
            return false;
        }
    }
    true
}
