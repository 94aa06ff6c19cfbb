//! Masks that are made value by value.
ghost use Rattle.std.specs.Prelude.{◌≡◌, ◌∷◌, [], ◌++◌, IfOk, IfErr, MatchResult};

use crate::{Mask, MaskError};
use std::alloc::Global;
use std::marker::Model;

/// Truth values, eight in a byte, and fewer than eight behind them.
#[derive(Drop)]
pub struct MaskBuilder {
    bytes: Vec<u8>,
    part: u8,
    filled: usize,
}

impl Model for MaskBuilder {
    ghost use Rattle.std.specs.Prelude.{◌<◌, ◌^◌, ◌++◌, List, Bool, take};
    ghost use Rattle.std.specs.List.{flat_map};
    ghost use Rattle.vortex_mask.specs.Bits.{bits_of_byte};

    ghost Value = { List Bool };

    ghost view = { λ b.
        flat_map bits_of_byte b.bytes.items ++ take b.filled (bits_of_byte b.part) };

    ghost invariant = { λ b. (b.filled < 8) × (b.part < 2 ^ b.filled) };
}

impl MaskBuilder {
    pub fn new(alloc: Global) -> MaskBuilder
        ensures { result ≡ [] }
    {
        MaskBuilder {
            bytes: Vec::new(alloc),
            part: 0,
            filled: 0,
        }
    }

    /// An empty builder with room for `len` truth values.
    pub fn with_capacity(alloc: Global, len: usize) -> Result<MaskBuilder, MaskError>
        ensures { MatchResult result (λ b. b ≡ []) (λ e. e ≡ MaskError.OutOfMemory) }
    {
        Ok(MaskBuilder {
            bytes: Vec::with_capacity(alloc, len / 8 + 1)?,
            part: 0,
            filled: 0,
        })
    }

    pub fn push(&mut self, value: bool) -> Result<(), MaskError>
        ensures pushed { IfOk result (λ _. self.new ≡ self.old ++ value ∷ []) }
        ensures left { IfErr result (λ _. self.new ≡ self.old) }
        ensures error { IfErr result (λ e. e ≡ MaskError.OutOfMemory) }
    {
        let part = self.part | (value as u8) << self.filled;
        if self.filled < 7 {
            self.part = part;
            self.filled += 1;
            return Ok(());
        }
        self.bytes.push(part)?;
        self.part = 0;
        self.filled = 0;
        Ok(())
    }

    pub fn finish(self) -> Result<Mask, MaskError>
        ensures { MatchResult result (λ m. m ≡ self) (λ e. e ≡ MaskError.OutOfMemory) }
    {
        let MaskBuilder {
            mut bytes,
            part,
            filled,
        } = self;
        if bytes.len() >= 1 << 60 {
            return Err(MaskError::OutOfMemory);
        }
        let len = 8 * bytes.len() + filled;
        bytes.push(part)?;
        Mask::from_vec(bytes, len)
    }
}
