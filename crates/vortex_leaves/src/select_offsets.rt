//! The offsets of pieces that are selected, where they are joined.

ghost use Rattle.std.specs.Prelude.{◌≡◌, ◌<◌, length, map, suc, IfSome, MatchResult};
ghost use Rattle.std.specs.List.{All};
ghost use Rattle.std.specs.Option.{option_map};
ghost use Rattle.vortex_mask.specs.Truths.{places_of};
ghost use Rattle.vortex_leaves.specs.Selected.{is_shown, joined_offsets, shown_size, size_at, AreJoinedOffsets};

use crate::LeafError;
use crate::offsets::Offsets;
use crate::offsets_builder::OffsetsBuilder;
use std::alloc::Global;
use vortex_mask::Mask;

/// Whether no mask hides row `i`.
pub(crate) fn shows(valid: Option<&Mask>, i: usize) -> bool
    requires { IfSome valid (λ m. i < length m.now) }
    ensures { result ≡ is_shown (option_map (λ m. m.now) valid.entry) i }
{
    match valid {
        None => true,
        Some(mask) => mask.value(i),
    }
}

impl Offsets {
    /// The offsets of the pieces at which the mask is true, joined.
    pub fn filter(&self, alloc: Global, mask: &Mask) -> Result<Offsets, LeafError>
        requires as_many { suc (length mask.now) ≡ length self.now }
        ensures { MatchResult result
            (λ os. os ≡ joined_offsets (map (size_at self.now) (places_of mask.now)))
            (λ e. e ≡ LeafError.OutOfMemory) }
    {
        self.law();
        let mut offsets = OffsetsBuilder::new(alloc)?;
        let mut end = 0;
        for i in 0..mask.len() {
            let (from, to) = self.bounds(i);
            if mask.value(i) {
                end += to - from;
                offsets.push(end)?;
            }
        }
        offsets.finish()
    }

    /// How long piece `i` is, and 0 where it is hidden.
    fn shown_size(&self, valid: Option<&Mask>, i: usize) -> u32
        requires index { suc i < length self.now }
        requires marked { IfSome valid (λ m. i < length m.now) }
        ensures { result ≡ shown_size (option_map (λ m. m.now) valid.entry) self.now i }
    {
        self.law();
        let (from, to) = self.bounds(i);
        if shows(valid, i) {
            return to - from;
        }
        0
    }

    /// The offsets of the pieces at these places, joined in their order, where pieces that `valid`
    /// hides are empty. None where the last would be above 4,294,967,295.
    pub fn take(
        &self,
        alloc: Global,
        valid: Option<&Mask>,
        places: &[u32],
    ) -> Result<Option<Offsets>, LeafError>
        requires marked { IfSome valid (λ m. suc (length m.now) ≡ length self.now) }
        requires in_range { All (λ place. suc place < length self.now) places.now }
        ensures { MatchResult result
            (AreJoinedOffsets
            (map (shown_size (option_map (λ m. m.now) valid.entry) self.now) places.now))
            (λ e. e ≡ LeafError.OutOfMemory) }
    {
        let mut offsets = OffsetsBuilder::new(alloc)?;
        let mut end: u32 = 0;
        for place in places {
            let Some(next) = end.checked_add(self.shown_size(valid, *place as usize)) else {
                return Ok(None);
            };
            offsets.push(next)?;
            end = next;
        }
        Ok(Some(offsets.finish()?))
    }
}
