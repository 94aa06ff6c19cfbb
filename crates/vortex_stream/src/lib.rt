//! Streams of messages: the outside as traits, and what bytes are a message and a stream.
#![tactic(auto)]

mod counts;
mod error;
mod kind;
mod memory;
pub mod schema;
mod sink;
mod source;
mod std_io;

pub use counts::{SinkCounts, SourceCounts};
pub use error::IpcError;
pub use kind::MessageKind;
pub use memory::{VecSink, VecSource};
pub use sink::{ShortWrite, Sink, SinkFailed, write_all};
pub use source::{Source, SourceFailed};
pub use std_io::{ReadSource, WriteSink};

#[cfg(test)]
mod tests;
