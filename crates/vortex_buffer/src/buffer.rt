//! Bytes that are cut without a copy.
ghost use Rattle.std.specs.Prelude.{◌≡◌, ◌≤◌, ◌==◌, [], length, MatchResult};
ghost use Rattle.vortex_buffer.specs.Buffer.{Buffer, unaligned, cut};

use crate::{Alignment, BufferError};
use bytes::Bytes;
use std::alloc::Global;
use std::marker::Model;

mod impls;

/// Shared bytes under an alignment. Equality, order and hash look at the bytes alone.
#[derive(Drop)]
pub struct ByteBuffer {
    shared: Bytes,
    label: Alignment,
}

impl Model for ByteBuffer {
    ghost use Rattle.vortex_buffer.specs.Buffer.{Buffer};

    ghost Value = { Buffer };

    ghost view = { λ b. record { bytes = b.shared; exponent = b.label } };
}

impl ByteBuffer {
    pub fn empty() -> ByteBuffer
        ensures { result ≡ unaligned [] }
    {
        ByteBuffer {
            shared: Bytes::new(),
            label: Alignment::from_exponent(0),
        }
    }

    pub fn from_slice(alloc: Global, bytes: &[u8]) -> Result<ByteBuffer, BufferError>
        ensures { MatchResult result
            (λ b. b ≡ unaligned bytes.now) (λ e. e ≡ BufferError.OutOfMemory) }
    {
        Ok(ByteBuffer {
            shared: Bytes::copy_from_slice(alloc, bytes)?,
            label: Alignment::from_exponent(0),
        })
    }

    /// Takes the bytes over, with no copy.
    pub fn from_vec(_alloc: Global, bytes: Vec<u8>) -> Result<ByteBuffer, BufferError>
        ensures { MatchResult result
            (λ b. b ≡ unaligned bytes.items) (λ e. e ≡ BufferError.OutOfMemory) }
    {
        Ok(ByteBuffer {
            shared: Bytes::from_vec(bytes)?,
            label: Alignment::from_exponent(0),
        })
    }

    pub fn with_alignment(self, alignment: Alignment) -> ByteBuffer
        ensures { result ≡ record { bytes = self.bytes; exponent = alignment } }
    {
        let ByteBuffer { shared, label: _ } = self;
        ByteBuffer {
            shared,
            label: alignment,
        }
    }

    pub fn alignment(&self) -> Alignment
        ensures { result ≡ self.now.exponent }
    {
        self.label
    }

    pub fn len(&self) -> usize
        ensures { result ≡ length self.now.bytes }
    {
        self.shared.len()
    }

    pub fn is_empty(&self) -> bool
        ensures { result ≡ (length self.now.bytes == 0) }
    {
        self.shared.is_empty()
    }

    pub fn as_slice(&self) -> &[u8]
        ensures { result.now ≡ self.now.bytes }
    {
        self.shared.as_slice()
    }

    /// The shared bytes, of which a clone takes no copy.
    pub fn inner(&self) -> &Bytes
        ensures { result.now ≡ self.now.bytes }
    {
        &self.shared
    }

    /// The bytes from `from` up to `to`, which stay shared with this buffer, under its alignment.
    pub fn slice(&self, _alloc: Global, from: usize, to: usize) -> Result<ByteBuffer, BufferError>
        requires start_le_end { from ≤ to }
        requires in_bounds { to ≤ length self.now.bytes }
        ensures { MatchResult result
            (λ b. b ≡ cut self.now from to) (λ e. e ≡ BufferError.OutOfMemory) }
    {
        Ok(ByteBuffer {
            shared: self.shared.slice(from..to)?,
            label: self.label,
        })
    }

    /// Stands for `clone`. The bytes stay shared.
    pub fn try_clone(&self, _alloc: Global) -> Result<ByteBuffer, BufferError>
        ensures { MatchResult result (λ b. b ≡ self.now) (λ e. e ≡ BufferError.OutOfMemory) }
    {
        Ok(ByteBuffer {
            shared: self.shared.clone()?,
            label: self.label,
        })
    }
}
