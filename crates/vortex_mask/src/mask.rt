//! Masks.
ghost use Rattle.std.specs.Prelude.{◌≡◌, ◌==◌, ◌*◌, ◌<◌, length, replicate, true, false, nat_le, Some, None, if◌then◌else◌, slice_index_or, not, IfSome};
ghost use Rattle.std.specs.List.{count_by, list_all};
ghost use Rattle.vortex_mask.specs.Bits.{truths_in};

use crate::bits::{bit_at, ones_at};
use bytes::Bytes;
use std::marker::Model;

mod packed;
mod select;

#[derive(Drop)]
enum Content {
    All(bool),
    Bits { bytes: Bytes, from: usize },
}

/// A list of truth values. Where all are the same it takes no memory, else a bit each.
#[derive(Drop)]
pub struct Mask {
    content: Content,
    len: usize,
}

impl Model for Mask {
    ghost use Rattle.std.specs.Prelude.{List, Bool};

    ghost Value = { List Bool };

    ghost use Rattle.vortex_mask.specs.Shown.{shown, IsHeld};

    ghost view = { λ m. shown m.content m.len };

    ghost invariant = { λ m. IsHeld m.content m.len };
}

impl Mask {
    pub fn new_true(len: usize) -> Mask
        ensures { result ≡ replicate len true }
    {
        Mask {
            content: Content::All(true),
            len,
        }
    }

    pub fn new_false(len: usize) -> Mask
        ensures { result ≡ replicate len false }
    {
        Mask {
            content: Content::All(false),
            len,
        }
    }

    /// The first `len` bits, the lowest of each byte first. None where there are too few.
    pub fn from_bits(bytes: Bytes, len: usize) -> Option<Mask>
        ensures { result ≡ (if nat_le len (8 * length bytes)
            then Some (truths_in len bytes) else None) }
    {
        if len.div_ceil(8) > bytes.len() {
            return None;
        }
        Some(Mask {
            content: Content::Bits { bytes, from: 0 },
            len,
        })
    }

    pub fn len(&self) -> usize
        ensures { result ≡ length self.now }
    {
        self.len
    }

    pub fn is_empty(&self) -> bool
        ensures { result ≡ (length self.now == 0) }
    {
        self.len() == 0
    }

    pub fn value(&self, place: usize) -> bool
        requires in_range { place < length self.now }
        ensures { result ≡ slice_index_or self.now place false }
    {
        match &self.content {
            Content::All(value) => *value,
            Content::Bits { bytes, from } => bit_at(bytes.as_slice(), *from + place),
        }
    }

    /// How many are true, in linear time.
    pub fn true_count(&self) -> usize
        ensures { result ≡ count_by (λ b. b) self.now }
    {
        match &self.content {
            Content::All(true) => self.len,
            Content::All(false) => 0,
            Content::Bits { bytes, from } => ones_at(bytes.as_slice(), *from, self.len),
        }
    }

    pub fn all_true(&self) -> bool
        ensures { result ≡ list_all (λ b. b) self.now }
    {
        self.true_count() == self.len()
    }

    pub fn all_false(&self) -> bool
        ensures { result ≡ list_all not self.now }
    {
        self.true_count() == 0
    }

    /// The one value of a mask that takes no memory.
    fn only(&self) -> Option<bool>
        ensures { IfSome result (λ b. self.now ≡ replicate (length self.now) b) }
    {
        match &self.content {
            Content::All(value) => Some(*value),
            Content::Bits { .. } => None,
        }
    }
}
