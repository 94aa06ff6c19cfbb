//! Parts of arrays.

ghost use Rattle.std.specs.Prelude.{◌≡◌, ◌≤◌, ◌<◌, ◌∷◌, [], length, slice_range, MatchResult, List, false, true, ℕ};
ghost use Rattle.std.specs.List.{AllByRecursion};
ghost use Rattle.vortex_terms.specs.Row.{bytes_row, null_row};
ghost use Rattle.vortex_terms.specs.Term.{binary, fixed_size_list, list, null};
ghost use Rattle.vortex_mask.specs.Truths.{kept};
ghost use Rattle.vortex_leaves.specs.Selected.{taken_rows};
ghost use Rattle.vortex_array_data.specs.Taken.{HoldsMuch, RefusesTake};

use crate::error::ArrayError;
use crate::held::Array;
use crate::pick_array::pick;
use crate::pick_rows::Picks;
use std::alloc::Global;
use vortex_mask::Mask;

impl Array {
    /// The rows from `from` up to `to`. Buffers stay shared, and the time does not depend on how
    /// many rows there are.
    pub fn slice(&self, alloc: Global, from: usize, to: usize) -> Result<Array, ArrayError>
        requires start_le_end { from ≤ to }
        requires in_bounds { to ≤ length self.now.rows }
        ensures { MatchResult result
            (λ a. (a.dtype ≡ self.now.dtype) × (a.rows ≡ slice_range self.now.rows from to))
            (λ e. e ≡ ArrayError.OutOfMemory) }
    {
        let array = pick(alloc, self, &Picks::Range(from, to))?;
        Ok(array)
    }

    /// The rows at which the mask is true. Texts and lists are joined without gaps. Where the mask
    /// is true for all rows, or for none, it is a slice: buffers stay shared.
    pub fn filter(&self, alloc: Global, mask: &Mask) -> Result<Array, ArrayError>
        requires { length mask.now ≡ length self.now.rows }
        ensures { MatchResult result
            (λ a. (a.dtype ≡ self.now.dtype) × (a.rows ≡ kept mask.now self.now.rows))
            (λ e. e ≡ ArrayError.OutOfMemory) }
    {
        if mask.all_true() {
            return self.slice(alloc, 0, self.len());
        }
        if mask.all_false() {
            return self.slice(alloc, 0, 0);
        }
        let array = pick(alloc, self, &Picks::Mask(mask))?;
        Ok(array)
    }

    /// The rows at these places, in their order, each as often as it is named. Texts and lists are
    /// joined without gaps, and those that are null hold nothing. It is [`ArrayError::TooLarge`]
    /// only where more than 4,294,967,295 places are named, or where a place is named twice and more
    /// rows or bytes than these stand in a part of the result.
    pub fn take(&self, alloc: Global, places: &[u32]) -> Result<Array, ArrayError>
        requires { AllByRecursion (λ place. place < length self.now.rows) places.now }
        ensures { MatchResult result
            (λ a. (a.dtype ≡ self.now.dtype) × (a.rows ≡ taken_rows places.now self.now.rows))
            (RefusesTake places.now self.now.dtype self.now.rows) }
    {
        let array = pick(alloc, self, &Picks::Places(places))?;
        Ok(array)
    }
}

/// Worked rows, and whether they are too much for an array.
pub fn takes_are_worked()
    ensures one_byte { HoldsMuch (binary false)
        (bytes_row (97 ∷ []) ∷ bytes_row (97 ∷ []) ∷ []) → ⊥ }
    ensures half { (bs : List ℕ) → length bs ≡ 2147483648
        → HoldsMuch (binary false) (bytes_row bs ∷ bytes_row bs ∷ []) }
    ensures beside_null { (bs : List ℕ) → length bs ≡ 2147483648
        → HoldsMuch (binary true) (bytes_row bs ∷ null_row ∷ []) → ⊥ }
    ensures null_lists { HoldsMuch (list (binary false) true) (null_row ∷ null_row ∷ []) → ⊥ }
    ensures fixed { HoldsMuch (fixed_size_list null 4294967295 true) (null_row ∷ null_row ∷ []) }
    ensures one_fixed { HoldsMuch (fixed_size_list null 4294967295 true) (null_row ∷ []) → ⊥ }
{}
