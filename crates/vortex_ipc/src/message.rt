//! Messages that are read.

use vortex_array::{ArrayContext, ArrayParts};
use vortex_buffer::ByteBuffer;
use vortex_dtype::DType;

/// A message that was read.
#[derive(Drop)]
pub enum DecoderMessage {
    /// An array: the parts of its body, the names of encodings that its header tells, in their order,
    /// and how many rows it has.
    Array((ArrayParts, ArrayContext, usize)),
    /// A buffer, under the alignment that its header tells.
    Buffer(ByteBuffer),
    /// A type.
    DType(DType),
}

/// What a decoder found.
#[derive(Drop)]
pub enum PollRead {
    /// The next message, whole.
    Some(DecoderMessage),
    /// How many bytes the present part of the message has in all: its length, its header or its
    /// body. Fewer stand in the queue.
    NeedMore(usize),
}
