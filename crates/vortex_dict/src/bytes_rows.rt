//! Rows of bytes in slices.

ghost use Rattle.std.specs.Prelude.{◌≡◌, ℕ, suc, ◌+◌, ◌-◌, ◌^◌, ◌<◌, ◌↔◌, get_or, length, map};
ghost use Rattle.std.specs.Prelude.{slice_get, Some, IsSome, IfSome, IsTrue};
ghost use Rattle.std.specs.Option.{option_map};
ghost use Rattle.vortex_terms.specs.Row.{null_row};
ghost use Rattle.vortex_dict.specs.KeyRows.{bytes_or_null};
ghost use Rattle.vortex_dict.specs.Limits.{byte_count};
ghost use Rattle.vortex_dict.specs.Slices.{bytes_at, bytes_rows, is_valid, ArePieces, AreBytesRows};

use std::marker::Model;

/// Rows of bytes: row i stands from offset i to offset i + 1, and is null where the list of
/// validity says so.
#[derive(Drop)]
pub struct BytesRows<'a> {
    bytes: &'a [u8],
    offsets: &'a [u32],
    valid: Option<&'a [bool]>,
}

impl<'a> Model for BytesRows<'a> {
    ghost use Rattle.std.specs.Prelude.{ℕ, List, Option};
    ghost use Rattle.std.specs.Option.{option_map};

    ghost Value = { List (Option (List ℕ)) };

    ghost use Rattle.vortex_dict.specs.Slices.{bytes_rows, AreBytesRows};

    ghost view = { λ r. bytes_rows r.bytes.now r.offsets.now (option_map (λ v. v.now) r.valid) };

    ghost invariant = { λ r. AreBytesRows r.bytes.now r.offsets.now
        (option_map (λ v. v.now) r.valid) };
}

/// Whether the offsets rise and end in the bytes.
fn are_pieces(bytes: &[u8], offsets: &[u32]) -> bool
    ensures { IsTrue result ↔ ArePieces bytes.now offsets.now }
{
    for i in 1..offsets.len() {
        if offsets[i - 1] > offsets[i] || offsets[i] as usize > bytes.len() {
            return false;
        }
    }
    true
}

/// Whether the row at a place is no null.
#[inline(always)]
pub(crate) fn is_valid(valid: Option<&[bool]>, i: usize) -> bool
    ensures { result ≡ is_valid (option_map (λ v. v.now) valid.entry) i }
{
    match valid {
        None => true,
        Some(valid) => i >= valid.len() || valid[i],
    }
}

/// The row at a place.
#[inline(always)]
fn row_at<'a>(
    bytes: &'a [u8],
    offsets: &[u32],
    valid: Option<&[bool]>,
    i: usize,
) -> Option<&'a [u8]>
    requires rows { ArePieces bytes.now offsets.now }
    requires within { suc i < length offsets.now }
    ensures { option_map (λ k. k.now) result ≡ bytes_at bytes.now offsets.now
        (option_map (λ v. v.now) valid.entry) i }
{
    if is_valid(valid, i) {
        Some(&bytes[offsets[i] as usize..offsets[i + 1] as usize])
    } else {
        None
    }
}

impl<'a> BytesRows<'a> {
    /// The rows, where the offsets part the bytes into as many as are valid or not.
    pub fn try_new(
        bytes: &'a [u8],
        offsets: &'a [u32],
        valid: Option<&'a [bool]>,
    ) -> Option<BytesRows<'a>>
        ensures rows { IfSome result (λ r. r ≡ bytes_rows bytes.now offsets.now
            (option_map (λ v. v.now) valid.entry)) }
        ensures exact { IsSome result ↔ AreBytesRows bytes.now offsets.now
            (option_map (λ v. v.now) valid.entry) }
    {
        if offsets.is_empty() || !are_pieces(bytes, offsets) {
            return None;
        }
        let counted = match valid {
            None => true,
            Some(valid) => valid.len() == offsets.len() - 1,
        };
        if !counted {
            return None;
        }
        Some(BytesRows {
            bytes,
            offsets,
            valid,
        })
    }

    /// No row has 2^63 bytes, since the buffer has not.
    pub fn law(&self)
        ensures { (i : ℕ) → i < length self.now → byte_count
            (get_or (map bytes_or_null self.now) i null_row) < 2 ^ 63 }
    {
        let _len = self.bytes.len();
    }

    pub fn len(&self) -> usize
        ensures { result ≡ length self.now }
    {
        self.offsets.len() - 1
    }

    pub fn is_empty(&self) -> bool
        ensures { IsTrue result ↔ (length self.now ≡ 0) }
    {
        self.len() == 0
    }

    /// The row at a place, nothing where it is null.
    #[inline(always)]
    pub fn get(&self, i: usize) -> Option<&'a [u8]>
        requires { i < length self.now }
        ensures { slice_get self.now i ≡ Some (option_map (λ k. k.now) result) }
    {
        row_at(self.bytes, self.offsets, self.valid, i)
    }
}
