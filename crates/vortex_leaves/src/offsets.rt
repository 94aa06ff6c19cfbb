//! Offsets.

ghost use Rattle.std.specs.Prelude.{◌≡◌, ◌≤◌, ◌<◌, ◌+◌, ◌*◌, ◌&&◌, ◌==◌, List, ℕ, length, map, nat_le, suc, IfOk, Some, slice_get, slice_range, IsTrue, MatchResult};
ghost use Rattle.std.specs.Int.{w32};
ghost use Rattle.vortex_number.specs.Format.{number_of_le_bytes};
ghost use Rattle.vortex_terms.specs.FromColumns.{last_from};
ghost use Rattle.vortex_node_rows.specs.Buffers.{never_fall, numbers_32, offsets_in};
ghost use Rattle.vortex_leaves.specs.Answers.{Answers};
ghost use Rattle.vortex_leaves.specs.Texts.{AreOffsets};

use crate::LeafError;
use crate::buffers::are_bytes;
use crate::chunk::chunk_at;
use bytes::Bytes;
use std::marker::Model;

/// So many and one offsets of 4 bytes each, which never fall. Their bytes are shared.
#[derive(Drop)]
pub struct Offsets {
    pub(crate) len: usize,
    pub(crate) bytes: Bytes,
}

impl Model for Offsets {
    ghost use Rattle.std.specs.Prelude.{List, ℕ, suc};
    ghost use Rattle.vortex_node_rows.specs.Buffers.{numbers_32};
    ghost use Rattle.vortex_leaves.specs.Texts.{HoldOffsets};

    ghost Value = { List ℕ };

    ghost view = { λ a. numbers_32 (suc a.len) a.bytes };

    ghost invariant = { λ a. HoldOffsets a.len a.bytes };
}

/// Whether that is the length of n and one offsets.
fn is_length(len: usize, n: usize) -> bool
    ensures { result ≡ (len == suc n * 4) }
{
    n < len / 4 && len == (n + 1) * 4
}

/// Whether the offsets never fall, and end there. It reads all of them, with no branch.
#[tactic(auto, unfolding(vortex_number::specs::Format::number_of_le_bytes))]
fn rise_within(offsets: &[[u8; 4]], end: usize) -> bool
    ensures { result ≡ (never_fall (map (number_of_le_bytes w32) offsets.now)
        && nat_le (last_from 0 (map (number_of_le_bytes w32) offsets.now)) end) }
{
    let mut ok = true;
    let mut last = 0;
    for offset in offsets {
        let next = u32::from_le_bytes(*offset);
        ok &= last <= next;
        last = next;
    }
    ok && last as usize <= end
}

/// Whether the bytes are n and one offsets up to the end.
#[tactic(auto, using(crate::proofs::Chunks::chunk_count))]
pub(crate) fn are_offsets(bytes: &[u8], n: usize, end: usize) -> bool
    ensures { result ≡ (length bytes.now == suc n * 4 && never_fall (numbers_32 (suc n) bytes.now)
        && nat_le (last_from 0 (numbers_32 (suc n) bytes.now)) end) }
{
    is_length(bytes.len(), n) && rise_within(bytes.as_chunks::<4>().0, end)
}

impl Offsets {
    /// The n and one offsets that the bytes are, of which the last is at most `end`.
    #[tactic(auto, unfolding(vortex_node_rows::specs::Buffers::offsets_in))]
    pub fn read(bytes: &Bytes, n: usize, end: usize) -> Result<Offsets, LeafError>
        ensures found { Answers (λ os. os) result (offsets_in n end bytes.now) }
        ensures shape { IfOk result (λ os. AreOffsets n end os) }
    {
        let slice = bytes.as_slice();
        are_bytes(slice);
        if !are_offsets(slice, n, end) {
            return Err(LeafError::Malformed);
        }
        Ok(Offsets {
            len: n,
            bytes: bytes.clone()?,
        })
    }

    /// How many there are beside the first.
    pub fn len(&self) -> usize
        ensures { length self.now ≡ suc result }
    {
        self.len
    }

    /// The bytes of all of them.
    pub fn bytes(&self) -> &Bytes
        ensures exact { length result.now ≡ length self.now * 4 }
        ensures offsets { numbers_32 (length self.now) result.now ≡ self.now }
    {
        &self.bytes
    }

    /// Offset `i`, where the last is offset `len`.
    #[tactic(auto, using(crate::proofs::Chunks::chunk_offset), unfolding(vortex_number::specs::Format::number_of_le_bytes))]
    pub fn get(&self, i: usize) -> u32
        requires { i < length self.now }
        ensures { slice_get self.now i ≡ Some result }
    {
        u32::from_le_bytes(chunk_at(self.bytes.as_slice(), self.len + 1, i))
    }

    /// Between which places piece `i` lies.
    pub fn bounds(&self, i: usize) -> (u32, u32)
        requires { suc i < length self.now }
        ensures from { slice_get self.now i ≡ Some result.0 }
        ensures to { slice_get self.now (suc i) ≡ Some result.1 }
    {
        let _count = self.len();
        (self.get(i), self.get(i + 1))
    }

    /// Those from one to another, which stay shared.
    pub fn slice(&self, from: usize, to: usize) -> Result<Offsets, LeafError>
        requires rise { from ≤ to }
        requires within { to < length self.now }
        ensures { MatchResult result (λ os. os ≡ slice_range self.now from (suc to))
            (λ e. e ≡ LeafError.OutOfMemory) }
    {
        let _size = self.bytes.len();
        let bytes = self.bytes.slice(from * 4..(to + 1) * 4)?;
        Ok(Offsets {
            len: to - from,
            bytes,
        })
    }

    /// They never fall. This does nothing when the program runs.
    pub fn law(&self)
        ensures count { 1 ≤ length self.now }
        ensures rise { IsTrue (never_fall self.now) }
    {
        let _ = &self.len;
    }
}
