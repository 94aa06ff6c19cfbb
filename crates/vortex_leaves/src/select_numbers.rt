//! Parts of numbers and of decimals.

ghost use Rattle.std.specs.Prelude.{◌≡◌, ◌≤◌, ◌<◌, length, slice_range, MatchResult};
ghost use Rattle.std.specs.List.{All};
ghost use Rattle.vortex_mask.specs.Truths.{kept};
ghost use Rattle.vortex_leaves.specs.Numbers.{number_rows};
ghost use Rattle.vortex_leaves.specs.Selected.{AreNumbersOf, taken_rows};

use crate::LeafError;
use crate::buffers::are_bytes;
use crate::decimals::Decimals;
use crate::numbers::Numbers;
use crate::select_chunks::{kept_numbers, taken_numbers};
use bytes::Bytes;
use std::alloc::Global;
use vortex_mask::Mask;

impl Numbers {
    /// The numbers from `from` up to `to`, whose bytes stay shared.
    pub fn slice(&self, from: usize, to: usize) -> Result<Numbers, LeafError>
        requires start_le_end { from ≤ to }
        requires in_bounds { to ≤ self.now.count }
        ensures { MatchResult result
            (AreNumbersOf self.now.format (slice_range (number_rows self.now) from to))
            (λ e. e ≡ LeafError.OutOfMemory) }
    {
        let width = self.format.width();
        let _size = self.bytes.len();
        let bytes = self.bytes.slice(from * width..to * width)?;
        are_bytes(bytes.as_slice());
        Ok(Numbers {
            format: self.format,
            len: to - from,
            bytes,
        })
    }

    /// The numbers at which the mask is true.
    pub fn filter(&self, alloc: Global, mask: &Mask) -> Result<Numbers, LeafError>
        requires same_len { length mask.now ≡ self.now.count }
        ensures { MatchResult result
            (AreNumbersOf self.now.format (kept mask.now (number_rows self.now)))
            (λ e. e ≡ LeafError.OutOfMemory) }
    {
        let bytes = kept_numbers(alloc, self.format, self.bytes.as_slice(), mask)?;
        let bytes = Bytes::from_vec(bytes)?;
        are_bytes(bytes.as_slice());
        Ok(Numbers {
            format: self.format,
            len: mask.true_count(),
            bytes,
        })
    }

    /// The numbers at these places, in their order.
    pub fn take(&self, alloc: Global, places: &[u32]) -> Result<Numbers, LeafError>
        requires in_range { All (λ place. place < self.now.count) places.now }
        ensures { MatchResult result
            (AreNumbersOf self.now.format (taken_rows places.now (number_rows self.now)))
            (λ e. e ≡ LeafError.OutOfMemory) }
    {
        let bytes = self.bytes.as_slice();
        let bytes = taken_numbers(alloc, self.format, bytes, self.len, places)?;
        let bytes = Bytes::from_vec(bytes)?;
        are_bytes(bytes.as_slice());
        Ok(Numbers {
            format: self.format,
            len: places.len(),
            bytes,
        })
    }
}

impl Decimals {
    /// The decimals from `from` up to `to`, whose bytes stay shared.
    pub fn slice(&self, from: usize, to: usize) -> Result<Decimals, LeafError>
        requires start_le_end { from ≤ to }
        requires in_bounds { to ≤ self.now.count }
        ensures { MatchResult result
            (AreNumbersOf self.now.format (slice_range (number_rows self.now) from to))
            (λ e. e ≡ LeafError.OutOfMemory) }
    {
        let digits = self.digits.slice(from, to)?;
        Ok(Decimals { digits })
    }

    /// The decimals at which the mask is true.
    pub fn filter(&self, alloc: Global, mask: &Mask) -> Result<Decimals, LeafError>
        requires same_len { length mask.now ≡ self.now.count }
        ensures { MatchResult result
            (AreNumbersOf self.now.format (kept mask.now (number_rows self.now)))
            (λ e. e ≡ LeafError.OutOfMemory) }
    {
        let digits = self.digits.filter(alloc, mask)?;
        Ok(Decimals { digits })
    }

    /// The decimals at these places, in their order.
    pub fn take(&self, alloc: Global, places: &[u32]) -> Result<Decimals, LeafError>
        requires in_range { All (λ place. place < self.now.count) places.now }
        ensures { MatchResult result
            (AreNumbersOf self.now.format (taken_rows places.now (number_rows self.now)))
            (λ e. e ≡ LeafError.OutOfMemory) }
    {
        let digits = self.digits.take(alloc, places)?;
        Ok(Decimals { digits })
    }
}
