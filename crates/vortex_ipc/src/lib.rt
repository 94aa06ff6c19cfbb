//! Messages over streams of bytes: reading them from a queue, in any cutting, and from a source, and
//! writing them.
#![tactic(auto)]

mod buf_reader;
mod decoder;
mod encoder;
mod header;
mod ipc_reader;
mod laws;
mod message;
mod queue;
mod read_state;
mod sync_reader;
mod writer;

pub use buf_reader::BufMessageReader;
pub use decoder::MessageDecoder;
pub use encoder::{EncoderMessage, MessageEncoder, written_messages_are_read};
pub use ipc_reader::SyncIPCReader;
pub use laws::{any_cutting, one_outcome, some_outcome};
pub use message::{DecoderMessage, PollRead};
pub use queue::BytesQueue;
pub use read_state::ReadState;
pub use sync_reader::SyncMessageReader;
pub use vortex_stream::{
    IpcError, MessageKind, ReadSource, ShortWrite, Sink, SinkCounts, SinkFailed, Source,
    SourceCounts, SourceFailed, VecSink, VecSource, WriteSink, write_all,
};
pub use writer::{SyncMessageWriter, write_message_to};

#[cfg(test)]
mod reader_tests;
#[cfg(test)]
mod tests;
#[cfg(test)]
mod writing_tests;
