//! The fields of a message.

ghost use Rattle.std.specs.Prelude.{◌≡◌, ◌<◌, ◌^◌, ◌++◌, ◌↔◌, ℕ, List, [], length, take, Some};
ghost use Rattle.std.specs.Prelude.{IfSome, IsNone, OnOk, OnErr, OnSome, IsOkUnless, option_map};
ghost use Rattle.std.specs.Prelude.{is_ok, if◌then◌else◌};
ghost use Rattle.vortex_wire.specs.Field.{content_of, field_of, bytes_at, content_at, field_at};
ghost use Rattle.vortex_wire.specs.Field.{fields_of, next_of, left_of, seen, then_fields};
ghost use Rattle.vortex_wire.specs.Field.{bytes_field, Bytes};

use crate::error::WireError;
use crate::varint::{put_varint, varint_at};
use std::marker::Model;

/// The greatest number of a field.
const MAX_NUMBER: u64 = 536_870_911;

/// What a field holds.
#[derive(Clone, Copy, Debug, PartialEq, Eq)]
pub enum WireValue<'a> {
    /// Wire type 0.
    Varint(u64),
    /// Wire type 1: eight bytes, the lowest first.
    Eight(u64),
    /// Wire type 2: a length and so many bytes.
    Bytes(&'a [u8]),
    /// Wire type 5: four bytes, the lowest first.
    Four(u32),
}

/// A field of a message.
#[derive(Clone, Copy, Debug, PartialEq, Eq)]
pub struct WireField<'a> {
    /// From 1 to 536,870,911.
    pub number: u32,
    /// What the field holds.
    pub value: WireValue<'a>,
}

/// A reader of fields. Contracts see it as the bytes that are left.
#[derive(Drop)]
pub struct Fields<'a> {
    left: &'a [u8],
}

impl<'a> Model for Fields<'a> {
    ghost use Rattle.std.specs.Prelude.{ℕ, List};

    ghost Value = { List ℕ };

    ghost view = { λ f. f.left.now };
}

impl<'a> Fields<'a> {
    /// The fields of these bytes.
    pub fn new(b: &'a [u8]) -> Fields<'a>
        ensures { result ≡ b.now }
    {
        Fields { left: b }
    }

    /// The next field.
    pub fn next_field(&mut self) -> Option<Result<WireField<'a>, WireError>>
        // The field that stands next, or Malformed where bytes are left and none stands.
        ensures given { seen result ≡ next_of self.old }
        ensures left { self.new ≡ left_of self.old }

        // So the fields of the bytes come one by one, and it ends.
        ensures fields { fields_of self.old ≡ then_fields result (fields_of self.new) }
        ensures ends { IsNone result ↔ (self.old ≡ []) }
        ensures shorter { OnSome result (length self.new < length self.old) }
    {
        if self.left.is_empty() {
            return None;
        }
        match field_at(self.left) {
            Some((field, rest)) => {
                self.left = rest;
                Some(Ok(field))
            }
            None => {
                self.left = &[];
                Some(Err(WireError::Malformed))
            }
        }
    }
}

#[tactic(auto, unfolding(crate::specs::Field::bytes_at))]
fn bytes_at(n: u64, bytes: &[u8]) -> Option<(&[u8], &[u8])>
    ensures found { option_map (λ x. (x.0.now, x.1.now)) result ≡ bytes_at n bytes.now }
    ensures long { IfSome result (λ x. length x.0.now ≡ n) }
{
    if n > bytes.len() as u64 {
        return None;
    }
    Some(bytes.split_at(n as usize))
}

#[tactic(auto, unfolding(crate::specs::Field::content_at))]
fn value_at(wire_type: u64, bytes: &[u8]) -> Option<(WireValue<'_>, &[u8])>
    ensures { option_map (λ x. (content_of x.0, x.1.now)) result ≡ content_at wire_type bytes.now }
{
    match wire_type {
        0 => {
            let (number, rest) = varint_at(bytes)?;
            Some((WireValue::Varint(number), rest))
        }
        1 => {
            let (eight, rest) = bytes_at(8, bytes)?;
            let number = u64::from_le_bytes([
                eight[0], eight[1], eight[2], eight[3], eight[4], eight[5], eight[6], eight[7],
            ]);
            Some((WireValue::Eight(number), rest))
        }
        2 => {
            let (size, rest) = varint_at(bytes)?;
            let (text, rest) = bytes_at(size, rest)?;
            Some((WireValue::Bytes(text), rest))
        }
        5 => {
            let (four, rest) = bytes_at(4, bytes)?;
            let number = u32::from_le_bytes([four[0], four[1], four[2], four[3]]);
            Some((WireValue::Four(number), rest))
        }
        _ => None,
    }
}

#[tactic(auto, unfolding(crate::specs::Field::field_at))]
fn field_at(bytes: &[u8]) -> Option<(WireField<'_>, &[u8])>
    ensures { option_map (λ x. (field_of x.0, x.1.now)) result ≡ field_at bytes.now }
{
    let (key, rest) = varint_at(bytes)?;
    let number = key / 8;
    if number == 0 || number > MAX_NUMBER {
        return None;
    }
    let (value, rest) = value_at(key % 8, rest)?;
    let number = number as u32;
    Some((WireField { number, value }, rest))
}

/// Appends a field that holds these bytes.
pub fn put_bytes(out: &mut Vec<u8>, number: u32, bytes: &[u8]) -> Result<(), WireError>
    requires some { 0 < number }
    requires most { number < 2 ^ 29 }
    ensures appended { out.new.items
        ≡ (if is_ok result then out.old.items ++ bytes_field number bytes.now else out.old.items) }
    ensures memory { IsOkUnless result WireError.OutOfMemory }
    ensures again { (rest : List ℕ) → field_at (bytes_field number bytes.now ++ rest)
        ≡ Some (record { number = number; content = Bytes bytes.now }, rest) }
{
    let len = out.len();
    let put = push_bytes(out, number, bytes);
    if put.is_err() {
        out.truncate(len);
    }
    put
}

#[tactic(auto, unfolding(crate::specs::Field::bytes_field))]
fn push_bytes(out: &mut Vec<u8>, number: u32, bytes: &[u8]) -> Result<(), WireError>
    requires { number < 2 ^ 29 }
    ensures ok { OnOk result (out.new.items ≡ out.old.items ++ bytes_field number bytes.now) }
    ensures err { OnErr result (take (length out.old.items) out.new.items ≡ out.old.items) }
    ensures memory { IsOkUnless result WireError.OutOfMemory }
{
    put_varint(out, u64::from(number) * 8 + 2)?;
    put_varint(out, bytes.len() as u64)?;
    out.extend_from_slice(bytes)?;
    Ok(())
}
