//! Vectors.

ghost use Rattle.std.specs.Prelude.{◌≡◌, ◌≤◌, ◌+◌, ◌*◌, ◌<◌, ◌==◌, length, take, drop, IfOk, Some};
ghost use Rattle.std.specs.Option.{option_map};
ghost use Rattle.vortex_flat.specs.Answers.{Answers};
ghost use Rattle.vortex_flat.specs.Numbers.{number};
ghost use Rattle.vortex_flat.specs.Targets.{element, table_element, table_view, text_element, vector_at, vector_view};

use crate::error::FlatError;
use crate::numbers::{u32_at, u64_at};
use crate::table::Table;
use crate::targets::{follow, text_at};
use std::marker::Model;

/// A vector all of whose elements lie in the buffer.
#[derive(Drop)]
pub struct Vector<'a> {
    bytes: &'a [u8],
    first: usize,
    width: usize,
    count: usize,
}

impl<'a> Model for Vector<'a> {
    ghost use Rattle.std.specs.Prelude.{◌+◌, ◌*◌, ◌≤◌, length};
    ghost use Rattle.vortex_flat.specs.Targets.{VectorView, vector_view};

    ghost Value = { VectorView };

    ghost view = { λ v. vector_view v.bytes.now
        (record { first = v.first; width = v.width; count = v.count }) };

    ghost invariant = { λ v. v.first + v.width * v.count ≤ length v.bytes.now };
}

#[tactic(auto, using(crate::proofs::TargetsLemmas::vector_no_count, crate::proofs::TargetsLemmas::vector_past, crate::proofs::TargetsLemmas::vector_here, crate::proofs::NumbersLemmas::number_within, crate::proofs::NumbersLemmas::passes_on))]
/// The vector at `place`, each of whose elements is `width` bytes wide.
pub(crate) fn vector_at(bytes: &[u8], place: usize, width: usize) -> Result<Vector<'_>, FlatError>
    requires { width ≤ 8 }
    ensures found { Answers (λ x. x) result
        (option_map (vector_view bytes.now) (vector_at bytes.now place width)) }
    ensures width { IfOk result (λ vector. vector.shape.width ≡ width) }
{
    let count = u32_at(bytes, place)? as usize;
    let first = place + 4;
    if bytes.len() - first < width * count {
        return Err(FlatError::Outside);
    }
    Ok(Vector {
        bytes,
        first,
        width,
        count,
    })
}

impl<'a> Vector<'a> {
    /// No elements, of that width.
    pub(crate) fn empty(bytes: &'a [u8], width: usize) -> Vector<'a>
        ensures { result ≡ vector_view bytes.now (record { first = 0; width = width; count = 0 }) }
    {
        Vector {
            bytes,
            first: 0,
            width,
            count: 0,
        }
    }

    /// All elements lie in the buffer. This does nothing when the program runs.
    pub fn law(&self)
        ensures { self.now.shape.first + self.now.shape.width * self.now.shape.count
            ≤ length self.now.buffer }
    {
        let _ = &self.first;
    }

    /// How many elements there are.
    pub fn len(&self) -> usize
        ensures { result ≡ self.now.shape.count }
    {
        self.count
    }

    /// Whether there is no element.
    pub fn is_empty(&self) -> bool
        ensures { result ≡ (self.now.shape.count == 0) }
    {
        self.count == 0
    }

    /// The bytes of a vector of width 1.
    pub(crate) fn bytes(&self) -> &'a [u8]
        requires { self.now.shape.width ≡ 1 }
        ensures { result.now
            ≡ take self.now.shape.count (drop self.now.shape.first self.now.buffer) }
    {
        &self.bytes[self.first..self.first + self.count]
    }

    /// The place of element `i`.
    fn place_of(&self, i: usize) -> usize
        requires { i < self.now.shape.count }
        ensures value { result ≡ element self.now.shape i }
        ensures within { result + self.now.shape.width ≤ length self.now.buffer }
    {
        self.first + self.width * i
    }

    /// The table that element `i` of a vector of offsets leads to.
    pub fn table(&self, i: usize) -> Result<Table<'a>, FlatError>
        requires width { self.now.shape.width ≡ 4 }
        requires index { i < self.now.shape.count }
        ensures { Answers (λ t. t) result
            (option_map (table_view self.now.buffer)
            (table_element self.now.buffer self.now.shape i)) }
    {
        Table::at(self.bytes, follow(self.bytes, self.place_of(i))?)
    }

    /// The text that element `i` of a vector of offsets leads to.
    pub fn str(&self, i: usize) -> Result<&'a str, FlatError>
        requires width { self.now.shape.width ≡ 4 }
        requires index { i < self.now.shape.count }
        ensures { Answers (λ text. text.now) result
            (text_element self.now.buffer self.now.shape i) }
    {
        text_at(self.bytes, follow(self.bytes, self.place_of(i))?)
    }

    #[tactic(auto, using(crate::proofs::NumbersLemmas::is_read))]
    /// Element `i`, a number of four bytes.
    pub fn u32(&self, i: usize) -> u32
        requires width { self.now.shape.width ≡ 4 }
        requires index { i < self.now.shape.count }
        ensures { Some result ≡ number self.now.buffer (element self.now.shape i) 4 }
    {
        u32_at(self.bytes, self.place_of(i)).unwrap()
    }

    #[tactic(auto, using(crate::proofs::NumbersLemmas::is_read))]
    /// Element `i`, a number of eight bytes.
    pub fn u64(&self, i: usize) -> u64
        requires width { self.now.shape.width ≡ 8 }
        requires index { i < self.now.shape.count }
        ensures { Some result ≡ number self.now.buffer (element self.now.shape i) 8 }
    {
        u64_at(self.bytes, self.place_of(i)).unwrap()
    }
}
