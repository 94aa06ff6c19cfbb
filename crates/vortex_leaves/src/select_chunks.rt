//! Chunks of so many bytes that are kept by a mask, or taken at places.

ghost use Rattle.std.specs.Prelude.{◌≡◌, ◌<◌, ◌≤◌, ◌*◌, [], IfOk, length, slice_index_or};
ghost use Rattle.std.specs.List.{All, flat_map};
ghost use Rattle.std.specs.Simd.{first_chunks};
ghost use Rattle.vortex_mask.specs.Truths.{kept};
ghost use Rattle.vortex_leaves.specs.Numbers.{number_width};

use crate::format::NumberFormat;
use std::alloc::{AllocError, Global};
use vortex_mask::Mask;

fn kept_rows<const N: usize>(
    alloc: Global,
    rows: &[[u8; N]],
    mask: &Mask,
) -> Result<Vec<u8>, AllocError>
    requires few { N ≤ 16 }
    requires as_many { length mask.now ≡ length rows.now }
    ensures { IfOk result (λ v. v.items ≡ flat_map (λ c. c) (kept mask.now rows.now)) }
{
    let mut bytes = Vec::with_capacity(alloc, mask.true_count().saturating_mul(N))?;
    for (i, row) in rows.iter().enumerate() {
        if mask.value(i) {
            bytes.extend_from_slice(row)?;
        }
    }
    Ok(bytes)
}

fn taken_rows<const N: usize>(
    alloc: Global,
    rows: &[[u8; N]],
    places: &[u32],
) -> Result<Vec<u8>, AllocError>
    requires few { N ≤ 16 }
    requires within { All (λ place. place < length rows.now) places.now }
    ensures { IfOk result (λ v. v.items
        ≡ flat_map (λ place. slice_index_or rows.now place []) places.now) }
{
    let mut bytes = Vec::with_capacity(alloc, places.len().saturating_mul(N))?;
    for place in places {
        bytes.extend_from_slice(&rows[*place as usize])?;
    }
    Ok(bytes)
}

/// The chunks of N bytes at which the mask is true, joined.
fn kept_chunks<const N: usize>(
    alloc: Global,
    bytes: &[u8],
    mask: &Mask,
) -> Result<Vec<u8>, AllocError>
    requires some { 0 < N }
    requires few { N ≤ 16 }
    requires exact { length bytes.now ≡ length mask.now * N }
    ensures { IfOk result (λ v. v.items
        ≡ flat_map (λ c. c) (kept mask.now (first_chunks N (length mask.now) bytes.now))) }
{
    kept_rows(alloc, bytes.as_chunks::<N>().0, mask)
}

/// The chunks of N bytes at places, joined. There are n chunks.
fn taken_chunks<const N: usize>(
    alloc: Global,
    bytes: &[u8],
    n: usize,
    places: &[u32],
) -> Result<Vec<u8>, AllocError>
    requires some { 0 < N }
    requires few { N ≤ 16 }
    requires exact { length bytes.now ≡ n * N }
    requires within { All (λ place. place < n) places.now }
    ensures { IfOk result (λ v. v.items
        ≡ flat_map (λ place. slice_index_or (first_chunks N n bytes.now) place []) places.now) }
{
    let _ = n;
    taken_rows(alloc, bytes.as_chunks::<N>().0, places)
}

/// The bytes of the numbers at which the mask is true.
pub(crate) fn kept_numbers(
    alloc: Global,
    format: NumberFormat,
    bytes: &[u8],
    mask: &Mask,
) -> Result<Vec<u8>, AllocError>
    requires { length bytes.now ≡ length mask.now * number_width format }
    ensures { IfOk result (λ v. v.items ≡ flat_map (λ c. c)
        (kept mask.now (first_chunks (number_width format) (length mask.now) bytes.now))) }
{
    match format {
        NumberFormat::U8 | NumberFormat::I8 => kept_chunks::<1>(alloc, bytes, mask),
        NumberFormat::U16 | NumberFormat::I16 => kept_chunks::<2>(alloc, bytes, mask),
        NumberFormat::U32 | NumberFormat::I32 => kept_chunks::<4>(alloc, bytes, mask),
        NumberFormat::U64 | NumberFormat::I64 => kept_chunks::<8>(alloc, bytes, mask),
        NumberFormat::I128 => kept_chunks::<16>(alloc, bytes, mask),
    }
}

/// The bytes of the numbers at places, of n numbers.
pub(crate) fn taken_numbers(
    alloc: Global,
    format: NumberFormat,
    bytes: &[u8],
    n: usize,
    places: &[u32],
) -> Result<Vec<u8>, AllocError>
    requires exact { length bytes.now ≡ n * number_width format }
    requires within { All (λ place. place < n) places.now }
    ensures { IfOk result (λ v. v.items ≡ flat_map
        (λ place. slice_index_or (first_chunks (number_width format) n bytes.now) place [])
        places.now) }
{
    match format {
        NumberFormat::U8 | NumberFormat::I8 => taken_chunks::<1>(alloc, bytes, n, places),
        NumberFormat::U16 | NumberFormat::I16 => taken_chunks::<2>(alloc, bytes, n, places),
        NumberFormat::U32 | NumberFormat::I32 => taken_chunks::<4>(alloc, bytes, n, places),
        NumberFormat::U64 | NumberFormat::I64 => taken_chunks::<8>(alloc, bytes, n, places),
        NumberFormat::I128 => taken_chunks::<16>(alloc, bytes, n, places),
    }
}
