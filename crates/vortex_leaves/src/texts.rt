//! Texts and bytes: offsets, and the bytes in which they end.

ghost use Rattle.std.specs.Prelude.{◌≡◌, ◌≤◌, ◌<◌, length, IfOk, Some, None, slice_get, slice_range, suc};
ghost use Rattle.std.specs.Option.{option_map};
ghost use Rattle.std.specs.Str.{is_utf8};
ghost use Rattle.vortex_body.specs.Node.{node_buffers};
ghost use Rattle.vortex_node_rows.specs.Leaves.{are_texts, pieces_of};
ghost use Rattle.vortex_leaves.specs.Answers.{Answers};
ghost use Rattle.vortex_leaves.specs.Texts.{AreTexts, text_pieces};

use crate::LeafError;
use crate::buffers::{are_bytes, two_buffers};
use crate::offsets::Offsets;
use bytes::Bytes;
use std::marker::Model;
use vortex_body::NodeParts;
use vortex_mask::Mask;

/// So many pieces of bytes, between offsets. Their bytes are shared.
#[derive(Drop)]
pub struct Texts {
    pub(crate) offsets: Offsets,
    pub(crate) bytes: Bytes,
}

impl Model for Texts {
    ghost use Rattle.vortex_leaves.specs.Texts.{AreTexts, TextBytes};

    ghost Value = { TextBytes };

    ghost view = { λ a. record { offsets = a.offsets; bytes = a.bytes } };

    ghost invariant = { λ a. AreTexts (record { offsets = a.offsets; bytes = a.bytes }) };
}

/// Whether the bytes are UTF-8. Many are read by blocks.
#[tactic(auto, using(crate::proofs::TextTests::by_test, crate::proofs::TextTests::is_text, crate::proofs::TextTests::is_none))]
pub(crate) fn is_text(bytes: &[u8]) -> bool
    ensures { result ≡ is_utf8 bytes.now }
{
    if bytes.len() < 64 {
        return str::from_utf8(bytes).is_ok();
    }
    simdutf8::basic::from_utf8(bytes).is_ok()
}

fn part(bytes: &[u8], from: usize, to: usize) -> &[u8]
    requires rise { from ≤ to }
    requires within { to ≤ length bytes.now }
    ensures { result.now ≡ slice_range bytes.now from to }
{
    &bytes[from..to]
}

impl Texts {
    /// The n pieces of the second buffer between the offsets of the first.
    #[tactic(auto, using(crate::proofs::Rising::texts_hold), unfolding(vortex_node_rows::specs::Leaves::pieces_of))]
    pub fn read(parts: &NodeParts, n: usize) -> Result<Texts, LeafError>
        ensures rows { Answers text_pieces result (pieces_of n (node_buffers parts.now)) }
        ensures count { IfOk result (λ a. length a.offsets ≡ suc n) }
    {
        let Some((offsets, bytes)) = two_buffers(parts) else {
            return Err(LeafError::Malformed);
        };
        let slice = bytes.as_slice();
        are_bytes(slice);
        let offsets = Offsets::read(offsets, n, slice.len())?;
        Ok(Texts {
            offsets,
            bytes: bytes.clone()?,
        })
    }

    /// Between which offsets the pieces are.
    pub fn offsets(&self) -> &Offsets
        ensures { result.now ≡ self.now.offsets }
    {
        &self.offsets
    }

    /// The bytes in which the offsets end.
    pub fn bytes(&self) -> &Bytes
        ensures { result.now ≡ self.now.bytes }
    {
        &self.bytes
    }

    /// How many pieces there are.
    pub fn len(&self) -> usize
        ensures { result ≡ length (text_pieces self.now) }
    {
        self.offsets.len()
    }

    /// Piece `i`.
    pub fn piece(&self, i: usize) -> &[u8]
        requires { i < length (text_pieces self.now) }
        ensures { slice_get (text_pieces self.now) i ≡ Some result.now }
    {
        let (from, to) = self.offsets.bounds(i);
        part(self.bytes.as_slice(), from as usize, to as usize)
    }

    fn all_texts(&self) -> bool
        ensures { result ≡ are_texts None (text_pieces self.now) }
    {
        let mut ok = true;
        for i in 0..self.len() {
            ok &= is_text(self.piece(i));
        }
        ok
    }

    fn valid_texts(&self, valid: &Mask) -> bool
        ensures { result ≡ are_texts (Some valid.now) (text_pieces self.now) }
    {
        let mut ok = true;
        for i in 0..self.len().min(valid.len()) {
            if valid.value(i) {
                ok &= is_text(self.piece(i));
            }
        }
        ok
    }

    /// Whether the pieces are UTF-8 that are valid. The others are not looked at.
    pub fn are_texts(&self, valid: Option<&Mask>) -> bool
        ensures { result ≡ are_texts (option_map (λ m. m.now) valid.entry)
            (text_pieces self.now) }
    {
        match valid {
            None => self.all_texts(),
            Some(mask) => self.valid_texts(mask),
        }
    }

    /// The offsets end in the bytes. This does nothing when the program runs.
    pub fn law(&self)
        ensures { AreTexts self.now }
    {
        let _ = &self.bytes;
    }
}
