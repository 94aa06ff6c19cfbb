//! Truth values in borrowed bytes.
ghost use Rattle.std.specs.Prelude.{◌≡◌, ◌+◌, ◌*◌, ◌^◌, ◌<◌, ◌≤◌, drop, length, replicate, slice_index, slice_index_or, take, false};
ghost use Rattle.std.specs.List.{flat_map, count_by};
ghost use Rattle.vortex_mask.specs.Bits.{bits_of_byte};
ghost use Rattle.vortex_mask.specs.Truths.{number_of};

/// The truth value at a place.
pub(crate) fn bit_at(bytes: &[u8], place: usize) -> bool
    requires { place < 8 * length bytes.now }
    ensures { result ≡ slice_index_or (flat_map bits_of_byte bytes.now) place false }
{
    bytes[place / 8] >> (place % 8) & 1 == 1
}

/// The byte at an index, 0 past the end.
fn byte_or_zero(bytes: &[u8], index: usize) -> u8
    ensures { result ≡ slice_index bytes.now index }
{
    bytes.get(index).copied().unwrap_or(0)
}

/// The `count` truth values from a place on, at most eight, as the low bits of a byte.
pub(crate) fn byte_at(bytes: &[u8], place: usize, count: usize) -> u8
    requires { count ≤ 8 }
    ensures { result ≡ number_of (take count (drop place (flat_map bits_of_byte bytes.now))) }
{
    let first = place / 8;
    let low = byte_or_zero(bytes, first) as u16;
    let high = byte_or_zero(bytes, first + 1) as u16;
    let pair = low | high << 8;
    (pair >> (place % 8) & ((1 << count) - 1)) as u8
}

/// How many of the `count` truth values from a place on are true.
pub(crate) fn ones_at(bytes: &[u8], place: usize, count: usize) -> usize
    requires { place + count < 2 ^ 64 }
    ensures { result ≡ count_by (λ b. b) (take count (drop place (flat_map bits_of_byte bytes.now))) }
{
    let mut ones = 0;
    for index in 0..count.div_ceil(8) {
        let start = 8 * index;
        let width = (count - start).min(8);
        ones += byte_at(bytes, place + start, width).count_ones() as usize;
    }
    ones
}

/// A truth value, so many times, as the low bits of a byte.
pub(crate) fn same_byte(value: bool, width: usize) -> u8
    requires { width ≤ 8 }
    ensures { result ≡ number_of (replicate width value) }
{
    if value {
        return ((1_u16 << width) - 1) as u8;
    }
    0
}
