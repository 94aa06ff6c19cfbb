//! Masks as bytes.
ghost use Rattle.std.specs.Prelude.{◌≡◌, ◌*◌, ◌<◌, ◌≤◌, drop, length, take, MatchResult};
ghost use Rattle.vortex_mask.specs.Bits.{truths_in};
ghost use Rattle.vortex_mask.specs.Truths.{number_of, packed};

use crate::bits::{byte_at, same_byte};
use crate::mask::{Content, Mask};
use crate::{MaskBuilder, MaskError};
use bytes::Bytes;
use std::alloc::Global;

impl Mask {
    /// The eight truth values of an index, or those that are left.
    pub(crate) fn byte(&self, index: usize) -> u8
        requires { 8 * index < length self.now }
        ensures { result ≡ number_of (take 8 (drop (8 * index) self.now)) }
    {
        let len = self.len();
        let start = 8 * index;
        let width = (len - start).min(8);
        match &self.content {
            Content::All(value) => same_byte(*value, width),
            Content::Bits { bytes, from } => byte_at(bytes.as_slice(), *from + start, width),
        }
    }

    /// Takes the bytes over, with no copy.
    pub(crate) fn from_vec(bytes: Vec<u8>, len: usize) -> Result<Mask, MaskError>
        requires { len ≤ 8 * length bytes.items }
        ensures { MatchResult result
            (λ m. m ≡ truths_in len bytes.items) (λ e. e ≡ MaskError.OutOfMemory) }
    {
        Ok(Mask {
            content: Content::Bits {
                bytes: Bytes::from_vec(bytes)?,
                from: 0,
            },
            len,
        })
    }

    /// As few bytes as hold the truth values. The bits that are left of the last byte are 0.
    pub fn to_bytes(&self, alloc: Global) -> Result<Vec<u8>, MaskError>
        ensures { MatchResult result
            (λ bytes. bytes.items ≡ packed self.now) (λ e. e ≡ MaskError.OutOfMemory) }
    {
        let count = self.len().div_ceil(8);
        let mut bytes = Vec::with_capacity(alloc, count)?;
        for index in 0..count {
            bytes.push(self.byte(index))?;
        }
        Ok(bytes)
    }

    pub fn from_bools(alloc: Global, values: &[bool]) -> Result<Mask, MaskError>
        ensures { MatchResult result
            (λ m. m ≡ values.now) (λ e. e ≡ MaskError.OutOfMemory) }
    {
        let mut builder = MaskBuilder::with_capacity(alloc, values.len())?;
        for value in values {
            builder.push(*value)?;
        }
        builder.finish()
    }
}
