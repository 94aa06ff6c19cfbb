//! Numbers of so many bytes.

ghost use Rattle.std.specs.Prelude.{◌≡◌, ◌<◌, ◌*◌, Some, slice_get, length};
ghost use Rattle.std.specs.Simd.{first_chunks};
ghost use Rattle.vortex_terms.specs.Row.{whole_row};
ghost use Rattle.vortex_node_rows.specs.Leaves.{numbers_in};
ghost use Rattle.vortex_leaves.specs.Numbers.{number_format, number_width};

use crate::format::NumberFormat;

/// The bytes of number `i`.
#[tactic(auto, using(crate::proofs::Chunks::chunk_count))]
pub(crate) fn chunk_at<const N: usize>(bytes: &[u8], n: usize, i: usize) -> [u8; N]
    requires some { 0 < N }
    requires exact { length bytes.now ≡ n * N }
    requires index { i < n }
    ensures { slice_get (first_chunks N n bytes.now) i ≡ Some result }
{
    let _ = n;
    bytes.as_chunks::<N>().0[i]
}

/// Number `i`.
#[tactic(auto, using(crate::proofs::Chunks::chunk_number), unfolding(vortex_number::specs::Format::number_of_le_bytes))]
pub(crate) fn number_at(format: NumberFormat, bytes: &[u8], n: usize, i: usize) -> i128
    requires exact { length bytes.now ≡ n * number_width format }
    requires index { i < n }
    ensures { slice_get (numbers_in (number_format format) n bytes.now) i
        ≡ Some (whole_row result) }
{
    match format {
        NumberFormat::U8 => u8::from_le_bytes(chunk_at(bytes, n, i)) as i128,
        NumberFormat::U16 => u16::from_le_bytes(chunk_at(bytes, n, i)) as i128,
        NumberFormat::U32 => u32::from_le_bytes(chunk_at(bytes, n, i)) as i128,
        NumberFormat::U64 => u64::from_le_bytes(chunk_at(bytes, n, i)) as i128,
        NumberFormat::I8 => i8::from_le_bytes(chunk_at(bytes, n, i)) as i128,
        NumberFormat::I16 => i16::from_le_bytes(chunk_at(bytes, n, i)) as i128,
        NumberFormat::I32 => i32::from_le_bytes(chunk_at(bytes, n, i)) as i128,
        NumberFormat::I64 => i64::from_le_bytes(chunk_at(bytes, n, i)) as i128,
        NumberFormat::I128 => i128::from_le_bytes(chunk_at(bytes, n, i)),
    }
}
