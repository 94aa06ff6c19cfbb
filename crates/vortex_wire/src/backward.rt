//! Messages written from the end to the start.

ghost use Rattle.std.specs.Prelude.{◌≡◌, ◌<◌, ◌≤◌, ◌^◌, ◌++◌, [], length, take, drop, reverse};
ghost use Rattle.std.specs.Prelude.{IfOk, IsOkUnless};
ghost use Rattle.vortex_wire.specs.Varint.{varint};
ghost use Rattle.vortex_wire.specs.Field.{bytes_field, varint_field};
ghost use Rattle.vortex_wire.specs.Message.{singular_field};
ghost use Rattle.vortex_wire.specs.Inside.{headed, flag_field, signed_field, text_field};

use crate::error::WireError;
use crate::field::put_bytes;
use crate::message::put_varint_field;
use crate::varint::put_varint;
use std::alloc::Global;
use std::marker::Model;

/// A message that is written from its end to its start, so that the length of what stands inside
/// is known when it is written. Contracts see it as the bytes in order.
#[derive(Drop)]
pub struct Backward {
    /// The bytes, the last first.
    reversed: Vec<u8>,
}

impl Model for Backward {
    ghost use Rattle.std.specs.Prelude.{ℕ, List, reverse};

    ghost Value = { List ℕ };

    ghost view = { λ b. reverse b.reversed.items };
}

/// The bytes from `len` on, which stand in order, and then the first `len`, which are reversed.
fn turned(reversed: Vec<u8>, len: usize) -> Backward
    requires { len ≤ length reversed.items }
    ensures { result ≡ drop len reversed.items ++ reverse (take len reversed.items) }
{
    let mut reversed = reversed;
    reversed[len..].reverse();
    Backward { reversed }
}

impl Backward {
    /// A message of no bytes.
    pub fn new(alloc: Global) -> Backward
        ensures { result ≡ [] }
    {
        Backward {
            reversed: Vec::new(alloc),
        }
    }

    /// How many bytes are written.
    pub fn len(&self) -> usize
        ensures { result ≡ length self.now }
    {
        self.reversed.len()
    }

    /// These bytes before what is written.
    pub fn with_bytes(self, bytes: &[u8]) -> Result<Backward, WireError>
        ensures written { IfOk result (λ b. b ≡ bytes.now ++ self) }
        ensures memory { IsOkUnless result WireError.OutOfMemory }
    {
        let mut reversed = self.reversed;
        let len = reversed.len();
        reversed.extend_from_slice(bytes)?;
        Ok(turned(reversed, len))
    }

    /// The shortest varint of `v` before what is written.
    pub fn with_varint(self, v: u64) -> Result<Backward, WireError>
        ensures written { IfOk result (λ b. b ≡ varint v ++ self) }
        ensures memory { IsOkUnless result WireError.OutOfMemory }
    {
        let mut reversed = self.reversed;
        let len = reversed.len();
        put_varint(&mut reversed, v)?;
        Ok(turned(reversed, len))
    }

    /// A field that holds a varint before what is written.
    pub fn with_varint_field(self, number: u32, v: u64) -> Result<Backward, WireError>
        requires some { 0 < number }
        requires most { number < 2 ^ 29 }
        ensures written { IfOk result (λ b. b ≡ varint_field number v ++ self) }
        ensures memory { IsOkUnless result WireError.OutOfMemory }
    {
        let mut reversed = self.reversed;
        let len = reversed.len();
        put_varint_field(&mut reversed, number, v)?;
        Ok(turned(reversed, len))
    }

    /// A field that holds these bytes before what is written.
    pub fn with_bytes_field(self, number: u32, bytes: &[u8]) -> Result<Backward, WireError>
        requires some { 0 < number }
        requires most { number < 2 ^ 29 }
        ensures written { IfOk result (λ b. b ≡ bytes_field number bytes.now ++ self) }
        ensures memory { IsOkUnless result WireError.OutOfMemory }
    {
        let mut reversed = self.reversed;
        let len = reversed.len();
        put_bytes(&mut reversed, number, bytes)?;
        Ok(turned(reversed, len))
    }

    /// A singular number before what is written: 0 is left out.
    pub fn with_singular_field(self, number: u32, v: u64) -> Result<Backward, WireError>
        requires some { 0 < number }
        requires most { number < 2 ^ 29 }
        ensures written { IfOk result (λ b. b ≡ singular_field number v ++ self) }
        ensures memory { IsOkUnless result WireError.OutOfMemory }
    {
        if v == 0 {
            return Ok(self);
        }
        self.with_varint_field(number, v)
    }

    /// A singular signed number before what is written, as its 64 bits: 0 is left out.
    pub fn with_signed_field(self, number: u32, v: i64) -> Result<Backward, WireError>
        requires some { 0 < number }
        requires most { number < 2 ^ 29 }
        ensures written { IfOk result (λ b. b ≡ signed_field number v ++ self) }
        ensures memory { IsOkUnless result WireError.OutOfMemory }
    {
        self.with_singular_field(number, v.cast_unsigned())
    }

    /// A flag before what is written: one that is not set is left out.
    pub fn with_flag_field(self, number: u32, is_set: bool) -> Result<Backward, WireError>
        requires some { 0 < number }
        requires most { number < 2 ^ 29 }
        ensures written { IfOk result (λ b. b ≡ flag_field number is_set ++ self) }
        ensures memory { IsOkUnless result WireError.OutOfMemory }
    {
        if !is_set {
            return Ok(self);
        }
        self.with_varint_field(number, 1)
    }

    /// A singular text before what is written: an empty one is left out.
    #[tactic(auto, using(crate::proofs::Headers::no_text, crate::proofs::Headers::some_text))]
    pub fn with_text_field(self, number: u32, text: &str) -> Result<Backward, WireError>
        requires some { 0 < number }
        requires most { number < 2 ^ 29 }
        ensures written { IfOk result (λ b. b ≡ text_field number text.now ++ self) }
        ensures memory { IsOkUnless result WireError.OutOfMemory }
    {
        if text.is_empty() {
            return Ok(self);
        }
        self.with_bytes_field(number, text.as_bytes())
    }

    /// What was written since there were `before` bytes, as the bytes of a field.
    #[tactic(auto, unfolding(crate::specs::Field::bytes_field))]
    pub fn with_header(self, number: u32, before: usize) -> Result<Backward, WireError>
        requires some { 0 < number }
        requires most { number < 2 ^ 29 }
        requires within { before ≤ length self }
        ensures written { IfOk result (λ b. b ≡ headed number before self) }
        ensures memory { IsOkUnless result WireError.OutOfMemory }
    {
        let len = self.len() - before;
        let inside = self.with_varint(len as u64)?;
        inside.with_varint(u64::from(number) * 8 + 2)
    }

    /// The bytes that are written.
    pub fn finish(self) -> Vec<u8>
        ensures { result.items ≡ self }
    {
        let mut bytes = self.reversed;
        bytes.reverse();
        bytes
    }
}
