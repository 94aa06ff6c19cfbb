//! Byte and text buffers that are cut without a copy.
#![tactic(auto)]

mod alignment;
mod buffer;
mod error;
#[cfg(test)]
mod tests;
mod text;

pub use alignment::Alignment;
pub use buffer::ByteBuffer;
pub use error::BufferError;
pub use text::BufferString;
