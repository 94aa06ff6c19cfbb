//! Parts of masks.
ghost use Rattle.std.specs.Prelude.{◌≡◌, ◌<◌, ◌≤◌, length, replicate, slice_range, MatchResult};
ghost use Rattle.std.specs.List.{All};
ghost use Rattle.vortex_mask.specs.Truths.{both, kept, picked, places_of};

use crate::mask::{Content, Mask};
use crate::{MaskBuilder, MaskError};
use std::alloc::Global;

impl Mask {
    /// The truth values from `from` up to `to`, which stay shared with this mask.
    pub fn slice(&self, from: usize, to: usize) -> Result<Mask, MaskError>
        requires start_le_end { from ≤ to }
        requires in_bounds { to ≤ length self.now }
        ensures { MatchResult result
            (λ m. m ≡ slice_range self.now from to) (λ e. e ≡ MaskError.OutOfMemory) }
    {
        let len = to - from;
        match &self.content {
            Content::All(value) => Ok(Mask {
                content: Content::All(*value),
                len,
            }),
            Content::Bits { bytes, from: first } => Ok(Mask {
                content: Content::Bits {
                    bytes: bytes.clone()?,
                    from: *first + from,
                },
                len,
            }),
        }
    }

    /// Stands for `clone`. The bits stay shared.
    pub fn try_clone(&self) -> Result<Mask, MaskError>
        ensures { MatchResult result (λ m. m ≡ self.now) (λ e. e ≡ MaskError.OutOfMemory) }
    {
        self.slice(0, self.len())
    }

    /// The truth values where `keep` is true.
    pub fn filter(&self, alloc: Global, keep: &Mask) -> Result<Mask, MaskError>
        requires same_len { length keep.now ≡ length self.now }
        ensures { MatchResult result
            (λ m. m ≡ kept keep.now self.now) (λ e. e ≡ MaskError.OutOfMemory) }
    {
        if let Some(every) = keep.only() {
            return if every {
                self.try_clone()
            } else {
                Ok(Mask::new_false(0))
            };
        }
        if let Some(value) = self.only() {
            return Ok(Mask {
                content: Content::All(value),
                len: keep.true_count(),
            });
        }
        self.filter_bits(alloc, keep)
    }

    fn filter_bits(&self, alloc: Global, keep: &Mask) -> Result<Mask, MaskError>
        requires same_len { length keep.now ≡ length self.now }
        ensures { MatchResult result
            (λ m. m ≡ kept keep.now self.now) (λ e. e ≡ MaskError.OutOfMemory) }
    {
        let mut builder = MaskBuilder::new(alloc);
        for place in 0..self.len() {
            if keep.value(place) {
                builder.push(self.value(place))?;
            }
        }
        builder.finish()
    }

    /// The truth values at these places, in their order.
    pub fn take(&self, alloc: Global, places: &[u32]) -> Result<Mask, MaskError>
        requires in_range { All (λ place. place < length self.now) places.now }
        ensures { MatchResult result
            (λ m. m ≡ picked places.now self.now) (λ e. e ≡ MaskError.OutOfMemory) }
    {
        let mut builder = MaskBuilder::with_capacity(alloc, places.len())?;
        for place in places {
            builder.push(self.value(*place as usize))?;
        }
        builder.finish()
    }

    /// The places of true, in order.
    pub fn indices(&self, alloc: Global) -> Result<Vec<usize>, MaskError>
        ensures { MatchResult result
            (λ places. places.items ≡ places_of self.now) (λ e. e ≡ MaskError.OutOfMemory) }
    {
        let mut places = Vec::with_capacity(alloc, self.true_count())?;
        for place in 0..self.len() {
            if self.value(place) {
                places.push(place)?;
            }
        }
        Ok(places)
    }

    /// True where both are.
    pub fn and(&self, alloc: Global, other: &Mask) -> Result<Mask, MaskError>
        requires same_len { length self.now ≡ length other.now }
        ensures { MatchResult result
            (λ m. m ≡ both self.now other.now) (λ e. e ≡ MaskError.OutOfMemory) }
    {
        if let Some(every) = self.only() {
            return other.and_all(every);
        }
        if let Some(every) = other.only() {
            return self.and_all(every);
        }
        self.and_bits(alloc, other)
    }

    fn and_all(&self, every: bool) -> Result<Mask, MaskError>
        ensures { MatchResult result
            (λ m. m ≡ both (replicate (length self.now) every) self.now)
            (λ e. e ≡ MaskError.OutOfMemory) }
    {
        if every {
            return self.try_clone();
        }
        Ok(Mask::new_false(self.len()))
    }

    fn and_bits(&self, alloc: Global, other: &Mask) -> Result<Mask, MaskError>
        requires same_len { length self.now ≡ length other.now }
        ensures { MatchResult result
            (λ m. m ≡ both self.now other.now) (λ e. e ≡ MaskError.OutOfMemory) }
    {
        let len = self.len();
        let count = len.div_ceil(8);
        let mut bytes = Vec::with_capacity(alloc, count)?;
        for index in 0..count {
            bytes.push(self.byte(index) & other.byte(index))?;
        }
        Mask::from_vec(bytes, len)
    }
}
