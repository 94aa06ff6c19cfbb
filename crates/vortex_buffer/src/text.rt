//! Text that is cut without a copy.
ghost use Rattle.std.specs.Prelude.{◌≡◌, ◌==◌, length, if◌then◌else◌, IsUtf8, MatchResult};
ghost use Rattle.std.specs.Str.{is_utf8};
ghost use Rattle.vortex_buffer.specs.Buffer.{Buffer, unaligned};

use crate::{BufferError, ByteBuffer};
use std::alloc::Global;
use std::marker::Model;
use std::str;

mod impls;

fn is_text(bytes: &[u8]) -> bool
    ensures { result ≡ is_utf8 bytes.now }
{
    match str::from_utf8(bytes) {
        Ok(_) => true,
        Err(_) => false,
    }
}

/// A buffer whose bytes are UTF-8. Equality, order and hash look at the bytes alone.
#[derive(Drop)]
pub struct BufferString {
    buffer: ByteBuffer,
}

impl Model for BufferString {
    ghost use Rattle.std.specs.Prelude.{IsUtf8};
    ghost use Rattle.vortex_buffer.specs.Buffer.{Buffer};

    ghost Value = { Buffer };

    ghost view = { λ s. s.buffer };

    ghost invariant = { λ s. IsUtf8 s.buffer.bytes };
}

impl BufferString {
    pub fn try_new(buffer: ByteBuffer) -> Result<BufferString, BufferError>
        ensures { result ≡ (if is_utf8 buffer.bytes then Ok buffer else Err BufferError.NotUtf8) }
    {
        if is_text(buffer.as_slice()) {
            Ok(BufferString { buffer })
        } else {
            Err(BufferError::NotUtf8)
        }
    }

    pub fn from_text(alloc: Global, text: &str) -> Result<BufferString, BufferError>
        ensures { MatchResult result
            (λ s. s ≡ unaligned text.now) (λ e. e ≡ BufferError.OutOfMemory) }
    {
        let buffer = ByteBuffer::from_slice(alloc, text.as_bytes())?;
        Ok(BufferString { buffer })
    }

    pub fn as_str(&self) -> &str
        ensures { result.now ≡ self.now.bytes }
    {
        unsafe { str::from_utf8_unchecked(self.buffer.as_slice()) }
    }

    pub fn len(&self) -> usize
        ensures { result ≡ length self.now.bytes }
    {
        self.buffer.len()
    }

    pub fn is_empty(&self) -> bool
        ensures { result ≡ (length self.now.bytes == 0) }
    {
        self.buffer.is_empty()
    }

    pub fn into_inner(self) -> ByteBuffer
        ensures same { result ≡ self }
        ensures utf8 { IsUtf8 result.bytes }
    {
        let BufferString { buffer } = self;
        buffer
    }

    /// Stands for `clone`. The bytes stay shared.
    pub fn try_clone(&self, alloc: Global) -> Result<BufferString, BufferError>
        ensures { MatchResult result (λ s. s ≡ self.now) (λ e. e ≡ BufferError.OutOfMemory) }
    {
        let buffer = self.buffer.try_clone(alloc)?;
        Ok(BufferString { buffer })
    }
}
