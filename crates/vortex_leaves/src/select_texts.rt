//! Parts of texts.

ghost use Rattle.std.specs.Prelude.{◌≡◌, ◌≤◌, ◌<◌, length, slice_range, IfOk, IfSome, MatchResult};
ghost use Rattle.std.specs.List.{All, flat_map};
ghost use Rattle.std.specs.Option.{option_map};
ghost use Rattle.vortex_mask.specs.Truths.{kept};
ghost use Rattle.vortex_leaves.specs.Selected.{shown_piece, taken_pieces, AreJoinedPieces};
ghost use Rattle.vortex_leaves.specs.Texts.{text_pieces};

use crate::LeafError;
use crate::buffers::are_bytes;
use crate::offsets_builder::OffsetsBuilder;
use crate::select_offsets::shows;
use crate::texts::Texts;
use bytes::Bytes;
use std::alloc::{AllocError, Global};
use vortex_mask::Mask;

impl Texts {
    /// The pieces from `from` up to `to`. Offsets and bytes stay shared.
    pub fn slice(&self, from: usize, to: usize) -> Result<Texts, LeafError>
        requires start_le_end { from ≤ to }
        requires in_bounds { to ≤ length (text_pieces self.now) }
        ensures { MatchResult result
            (λ a. text_pieces a ≡ slice_range (text_pieces self.now) from to)
            (λ e. e ≡ LeafError.OutOfMemory) }
    {
        let offsets = self.offsets.slice(from, to)?;
        let bytes = self.bytes.clone()?;
        are_bytes(bytes.as_slice());
        Ok(Texts { offsets, bytes })
    }

    /// The pieces at which the mask is true, joined without gaps.
    pub fn filter(&self, alloc: Global, mask: &Mask) -> Result<Texts, LeafError>
        requires same_len { length mask.now ≡ length (text_pieces self.now) }
        ensures { MatchResult result (λ a. text_pieces a ≡ kept mask.now (text_pieces self.now))
            (λ e. e ≡ LeafError.OutOfMemory) }
    {
        self.law();
        let mut offsets = OffsetsBuilder::new(alloc)?;
        let mut bytes = Vec::new(alloc);
        for i in 0..self.len() {
            let (_, most) = self.offsets.bounds(i);
            if mask.value(i) {
                bytes.extend_from_slice(self.piece(i))?;
                offsets.push(as_offset(bytes.len(), most))?;
            }
        }
        let offsets = offsets.finish()?;
        offsets.law();
        let bytes = Bytes::from_vec(bytes)?;
        are_bytes(bytes.as_slice());
        Ok(Texts { offsets, bytes })
    }

    /// The bytes of the pieces at these places that are not hidden, joined. There are so many.
    fn taken_bytes(
        &self,
        alloc: Global,
        size: usize,
        valid: Option<&Mask>,
        places: &[u32],
    ) -> Result<Vec<u8>, AllocError>
        requires marked { IfSome valid (λ m. length m.now ≡ length (text_pieces self.now)) }
        requires in_range { All (λ place. place < length (text_pieces self.now)) places.now }
        ensures { IfOk result (λ v. v.items ≡ flat_map
            (shown_piece (option_map (λ m. m.now) valid.entry) (text_pieces self.now))
            places.now) }
    {
        let mut bytes = Vec::with_capacity(alloc, size)?;
        for place in places {
            let place = *place as usize;
            if shows(valid, place) {
                bytes.extend_from_slice(self.piece(place))?;
            }
        }
        Ok(bytes)
    }

    /// The pieces at these places, in their order, joined without gaps. Pieces that `valid` hides
    /// are empty. None where they have more than 4,294,967,295 bytes together.
    pub fn take(
        &self,
        alloc: Global,
        valid: Option<&Mask>,
        places: &[u32],
    ) -> Result<Option<Texts>, LeafError>
        requires marked { IfSome valid (λ m. length m.now ≡ length (text_pieces self.now)) }
        requires in_range { All (λ place. place < length (text_pieces self.now)) places.now }
        ensures { MatchResult result (AreJoinedPieces
            (taken_pieces (option_map (λ m. m.now) valid.entry) places.now (text_pieces self.now)))
            (λ e. e ≡ LeafError.OutOfMemory) }
    {
        self.law();
        let Some(offsets) = self.offsets.take(alloc, valid, places)? else {
            return Ok(None);
        };
        offsets.law();
        let size = offsets.get(offsets.len()) as usize;
        let bytes = Bytes::from_vec(self.taken_bytes(alloc, size, valid, places)?)?;
        are_bytes(bytes.as_slice());
        Ok(Some(Texts { offsets, bytes }))
    }
}

/// A length as an offset.
fn as_offset(len: usize, most: u32) -> u32
    requires { len ≤ most }
    ensures { result ≡ len }
{
    let _ = most;
    len as u32
}
