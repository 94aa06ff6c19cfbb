//! Offsets that are made one by one.

ghost use Rattle.std.specs.Prelude.{◌≡◌, ◌≤◌, ◌∷◌, [], ◌++◌, IfOk, IfErr, MatchResult, OnErr};
ghost use Rattle.vortex_terms.specs.FromColumns.{last_from};

use crate::LeafError;
use crate::buffers::are_bytes;
use crate::offsets::Offsets;
use bytes::Bytes;
use std::alloc::Global;
use std::marker::Model;

/// Offsets so far, of which the first is 0.
#[derive(Drop)]
pub struct OffsetsBuilder {
    len: usize,
    bytes: Vec<u8>,
}

impl Model for OffsetsBuilder {
    ghost use Rattle.std.specs.Prelude.{◌≡◌, ◌*◌, List, ℕ, suc, length, IsTrue};
    ghost use Rattle.vortex_node_rows.specs.Buffers.{never_fall, numbers_32};

    ghost Value = { List ℕ };

    ghost view = { λ b. numbers_32 (suc b.len) b.bytes.items };

    ghost invariant = { λ b. (length b.bytes.items ≡ suc b.len * 4)
        × IsTrue (never_fall (numbers_32 (suc b.len) b.bytes.items)) };
}

impl OffsetsBuilder {
    /// The one offset 0.
    #[tactic(auto, unfolding(vortex_number::specs::Format::number_of_le_bytes))]
    pub fn new(alloc: Global) -> Result<OffsetsBuilder, LeafError>
        ensures { MatchResult result (λ b. b ≡ 0 ∷ []) (λ e. e ≡ LeafError.OutOfMemory) }
    {
        Ok(OffsetsBuilder {
            len: 0,
            bytes: Vec::from_slice(alloc, &[0, 0, 0, 0])?,
        })
    }

    /// Puts an offset behind the others, none of which is greater.
    #[tactic(auto, unfolding(vortex_number::specs::Format::le_bytes))]
    pub fn push(&mut self, offset: u32) -> Result<(), LeafError>
        requires rise { last_from 0 self.old ≤ offset }
        ensures pushed { IfOk result (λ _. self.new ≡ self.old ++ offset ∷ []) }
        ensures left { OnErr result (self.new ≡ self.old) }
        ensures error { IfErr result (λ e. e ≡ LeafError.OutOfMemory) }
    {
        self.bytes.extend_from_slice(&offset.to_le_bytes())?;
        self.len += 1;
        Ok(())
    }

    pub fn finish(self) -> Result<Offsets, LeafError>
        ensures { MatchResult result (λ os. os ≡ self) (λ e. e ≡ LeafError.OutOfMemory) }
    {
        let OffsetsBuilder { len, bytes } = self;
        let bytes = Bytes::from_vec(bytes)?;
        are_bytes(bytes.as_slice());
        Ok(Offsets { len, bytes })
    }
}
