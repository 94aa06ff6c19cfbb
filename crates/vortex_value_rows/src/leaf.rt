//! Values that hold no values.

ghost use Rattle.std.specs.Prelude.{◌≡◌, ◌↔◌, IsTrue};
ghost use Rattle.std.specs.Int.{w128};
ghost use Rattle.std.specs.Str.{is_utf8};
ghost use Rattle.vortex_number.specs.WholeKind.{whole_kind};
ghost use Rattle.vortex_terms.specs.Fits.{InRange};
ghost use Rattle.vortex_terms.specs.Tests.{are_bytes, is_in_range, is_signed};
ghost use Rattle.vortex_value_rows.specs.RowOf.{number_of_bytes};

use std::str;
use vortex_value::{PType, TryFromBytes};

/// Whether the number lies in the range of the kind.
fn in_range(ptype: PType, number: i128) -> bool
    ensures { IsTrue result ↔ InRange (whole_kind ptype) number }
{
    match ptype {
        PType::U8 => u8::try_from(number).is_ok(),
        PType::U16 => u16::try_from(number).is_ok(),
        PType::U32 => u32::try_from(number).is_ok(),
        PType::U64 => u64::try_from(number).is_ok(),
        PType::I8 => i8::try_from(number).is_ok(),
        PType::I16 => i16::try_from(number).is_ok(),
        PType::I32 => i32::try_from(number).is_ok(),
        PType::I64 => i64::try_from(number).is_ok(),
    }
}

/// Whether the number lies in the range of the kind.
pub(crate) fn is_of_kind(ptype: PType, number: i128) -> bool
    ensures { result ≡ is_in_range (whole_kind ptype) number }
{
    in_range(ptype, number)
}

/// Whether the number lies in the range of `i128`, as each does.
pub(crate) fn is_wide(number: i128) -> bool
    ensures { result ≡ is_signed w128 number }
{
    let _ = number;
    true
}

/// Whether the bytes are UTF-8.
pub(crate) fn is_text(bytes: &[u8]) -> bool
    ensures { result ≡ is_utf8 bytes.now }
{
    match str::from_utf8(bytes) {
        Ok(_) => true,
        Err(_) => false,
    }
}

/// Whether the text is UTF-8, as each is.
pub(crate) fn is_str(text: &str) -> bool
    ensures { result ≡ is_utf8 text.now }
{
    let _ = text.len();
    true
}

/// Whether the bytes are bytes, as each is.
pub(crate) fn is_binary(bytes: &[u8]) -> bool
    ensures { result ≡ are_bytes bytes.now }
{
    let _ = bytes.len();
    true
}

/// The signed number whose bytes these are, the lowest first: 1, 2, 4, 8 or 16 bytes.
pub fn number_of_bytes(bytes: &[u8]) -> Option<i128>
    ensures { result ≡ number_of_bytes bytes.now }
{
    match bytes.len() {
        1 => i8::try_from_le_bytes(bytes).ok().map(i128::from),
        2 => i16::try_from_le_bytes(bytes).ok().map(i128::from),
        4 => i32::try_from_le_bytes(bytes).ok().map(i128::from),
        8 => i64::try_from_le_bytes(bytes).ok().map(i128::from),
        16 => i128::try_from_le_bytes(bytes).ok(),
        _ => None,
    }
}
