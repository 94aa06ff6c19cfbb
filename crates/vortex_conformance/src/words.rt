//! The words of questions and answers.

use crate::answers::Refusal;
use hex::FromHexError;
use std::alloc::{AllocError, Global};
use vortex_buffer::ByteBuffer;

/// The bytes that a word spells, `-` for none.
pub(crate) fn buffer_of(alloc: Global, word: &str) -> Result<ByteBuffer, Refusal> {
    if word == "-" {
        return Ok(ByteBuffer::empty());
    }
    match hex::decode(alloc, word) {
        Ok(bytes) => Ok(ByteBuffer::from_vec(alloc, bytes)?),
        Err(FromHexError::OutOfMemory) => Err(Refusal::OutOfMemory),
        Err(_) => Err(Refusal::Unknown),
    }
}

/// Bytes as a word.
pub(crate) fn word_of(alloc: Global, bytes: &[u8]) -> Result<String, AllocError> {
    if bytes.is_empty() {
        String::from_str(alloc, "-")
    } else {
        hex::encode(alloc, bytes)
    }
}
