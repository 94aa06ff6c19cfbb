//! Numbers as groups of seven bits.

ghost use Rattle.std.specs.Prelude.{◌≡◌, ◌<◌, ◌≤◌, ◌+◌, ◌++◌, List, ℕ, length, option_map, is_ok};
ghost use Rattle.std.specs.Prelude.{if◌then◌else◌, IsOkUnless, All};
ghost use Rattle.vortex_wire.specs.Varint.{varint_at, varint};

use crate::error::WireError;

/// How many bytes the longest varint has.
const MAX_LEN: usize = 10;

/// The varint with which the bytes begin, and the bytes after it.
pub(crate) fn varint_at(bytes: &[u8]) -> Option<(u64, &[u8])>
    ensures { option_map (λ x. (x.0, x.1.now)) result ≡ varint_at bytes.now }
{
    let mut value: u64 = 0;
    let mut scale: u64 = 1;
    for (index, byte) in bytes.iter().enumerate() {
        let byte = u64::from(*byte);
        // Nine bytes hold 63 bits, so the tenth has one, and is the last.
        if index == MAX_LEN - 1 && byte > 1 {
            return None;
        }
        if byte < 128 {
            return Some((value + byte * scale, &bytes[index + 1..]));
        }
        value += (byte - 128) * scale;
        scale *= 128;
    }
    None
}

/// Appends the shortest varint of `v`.
pub fn put_varint(out: &mut Vec<u8>, v: u64) -> Result<(), WireError>
    ensures appended { out.new.items
        ≡ (if is_ok result then out.old.items ++ varint v else out.old.items) }
    ensures memory { IsOkUnless result WireError.OutOfMemory }

    // The varint is read again, whatever follows, and nothing shorter is read as this number.
    ensures again { (rest : List ℕ) → varint_at (varint v ++ rest) ≡ Some (v, rest) }
    ensures shortest { (bytes rest : List ℕ) → All (λ b. b < 256) bytes
        → varint_at bytes ≡ Some (v, rest)
        → length (varint v) + length rest ≤ length bytes }
{
    let mut buffer = [0u8; MAX_LEN];
    let mut len = 0;
    let mut left = v;
    while left >= 128 {
        buffer[len] = (left % 128) as u8 + 128;
        len += 1;
        left /= 128;
    }
    buffer[len] = left as u8;
    out.extend_from_slice(&buffer[..len + 1])?;
    Ok(())
}
