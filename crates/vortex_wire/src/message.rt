//! The singular fields of a message.

ghost use Rattle.std.specs.Prelude.{◌≡◌, ◌<◌, ◌^◌, ◌++◌, ℕ, List, length, take, Some, OnOk, OnErr};
ghost use Rattle.std.specs.Prelude.{IsOkUnless, is_ok, if◌then◌else◌};
ghost use Rattle.std.specs.Option.{ok_or};
ghost use Rattle.vortex_wire.specs.Field.{Varint, field_at, varint_field};
ghost use Rattle.vortex_wire.specs.Message.{singular_varint, singular_u32, only_field, found};
ghost use Rattle.vortex_wire.specs.Message.{singular_field};

use crate::error::WireError;
use crate::field::{Fields, WireField, WireValue};
use crate::varint::put_varint;

/// The last varint of this number. A field of this number that holds no varint is refused.
pub fn singular_varint(b: &[u8], number: u32) -> Result<Option<u64>, WireError>
    ensures { result ≡ ok_or (singular_varint number b.now) WireError.Malformed }
{
    let mut last = None;
    let mut fields = Fields::new(b);
    while let Some(field) = fields.next_field() {
        match field {
            Err(error) => return Err(error),
            Ok(field) => {
                if field.number == number {
                    match field.value {
                        WireValue::Varint(n) => last = Some(n),
                        _ => return Err(WireError::Malformed),
                    }
                }
            }
        }
    }
    Ok(last)
}

/// The low 32 bits of the last varint of this number, 0 where the field is missing.
#[tactic(auto, unfolding(crate::specs::Message::singular_u32))]
pub fn singular_u32(b: &[u8], number: u32) -> Result<u32, WireError>
    ensures { result ≡ ok_or (singular_u32 number b.now) WireError.Malformed }
{
    let found = singular_varint(b, number)?.unwrap_or(0);
    Ok((found % (1 << 32)) as u32)
}

/// The only field with a number from `first` to `last`, as a member of a oneof or a singular
/// message. Two of them are refused.
pub fn only_field(b: &[u8], first: u32, last: u32) -> Result<Option<WireField<'_>>, WireError>
    ensures { found result ≡ ok_or (only_field first last b.now) WireError.Malformed }
{
    let mut only = None;
    let mut fields = Fields::new(b);
    while let Some(field) = fields.next_field() {
        match field {
            Err(error) => return Err(error),
            Ok(field) => {
                if first <= field.number && field.number <= last {
                    if only.is_some() {
                        return Err(WireError::Malformed);
                    }
                    only = Some(field);
                }
            }
        }
    }
    Ok(only)
}

/// Appends a field that holds a varint.
pub fn put_varint_field(out: &mut Vec<u8>, number: u32, v: u64) -> Result<(), WireError>
    requires some { 0 < number }
    requires most { number < 2 ^ 29 }
    ensures appended { out.new.items
        ≡ (if is_ok result then out.old.items ++ varint_field number v else out.old.items) }
    ensures memory { IsOkUnless result WireError.OutOfMemory }
    ensures again { (rest : List ℕ) → field_at (varint_field number v ++ rest)
        ≡ Some (record { number = number; content = Varint v }, rest) }
{
    let len = out.len();
    let put = push_varint_field(out, number, v);
    if put.is_err() {
        out.truncate(len);
    }
    put
}

#[tactic(auto, unfolding(crate::specs::Field::varint_field))]
fn push_varint_field(out: &mut Vec<u8>, number: u32, v: u64) -> Result<(), WireError>
    requires { number < 2 ^ 29 }
    ensures ok { OnOk result (out.new.items ≡ out.old.items ++ varint_field number v) }
    ensures err { OnErr result (take (length out.old.items) out.new.items ≡ out.old.items) }
    ensures memory { IsOkUnless result WireError.OutOfMemory }
{
    put_varint(out, u64::from(number) * 8)?;
    put_varint(out, v)?;
    Ok(())
}

/// Appends a singular field, of which 0 is left out.
pub(crate) fn put_singular(out: &mut Vec<u8>, number: u32, v: u32) -> Result<(), WireError>
    requires some { 0 < number }
    requires most { number < 2 ^ 29 }
    ensures ok { OnOk result (out.new.items ≡ out.old.items ++ singular_field number v) }
    ensures memory { IsOkUnless result WireError.OutOfMemory }
{
    if v == 0 {
        return Ok(());
    }
    put_varint_field(out, number, u64::from(v))
}
