//! Messages written to a sink.

ghost use Rattle.std.specs.Prelude.{◌≡◌, ℕ, ◌<◌, length, take, IsOkUnless, OnOk, OnErr};
ghost use Rattle.std.specs.List.{concat};
ghost use Rattle.std.specs.Io.KnownBytes.{Appends};
ghost use Rattle.vortex_stream.specs.Counts.{with_fault};
ghost use Rattle.vortex_ipc.specs.Encoding.{WritesMessage};

use crate::encoder::{EncoderMessage, MessageEncoder};
use bytes::Bytes;
use std::alloc::Global;
use vortex_stream::{IpcError, Sink, write_all};

/// A sink to which messages are written, one after another.
#[derive(Drop)]
pub struct SyncMessageWriter<K> {
    pub(crate) sink: K,
}

impl<K: Sink> SyncMessageWriter<K> {
    /// A writer to `sink`, which is left as it is.
    pub fn new(sink: K) -> SyncMessageWriter<K>
        ensures { result.sink ≡ sink }
    {
        SyncMessageWriter { sink }
    }

    /// Writes a message. Nothing is flushed.
    pub fn write_message(
        &mut self,
        alloc: Global,
        message: EncoderMessage<'_>,
    ) -> Result<(), IpcError>
        ensures { WritesMessage K.counts K.written result message.entry
            self.old.sink self.new.sink }
    {
        write_message_to(alloc, &mut self.sink, message)
    }
}

/// Writes a message to a sink that is lent. Nothing is flushed.
pub fn write_message_to<K: Sink>(
    alloc: Global,
    sink: &mut K,
    message: EncoderMessage<'_>,
) -> Result<(), IpcError>
    ensures { WritesMessage K.counts K.written result message.entry sink.old sink.new }
{
    let pieces = MessageEncoder.encode(alloc, message)?;
    write_pieces(sink, &pieces)
}

/// Writes pieces, one after another, up to the first that fails.
fn write_pieces<K: Sink>(sink: &mut K, pieces: &[Bytes]) -> Result<(), IpcError>
    ensures all { OnOk result
        (Appends (K.written sink.old) (K.written sink.new) (concat pieces.now)) }
    ensures short { OnErr result ((n : ℕ) × (n < length (concat pieces.now))
        × Appends (K.written sink.old) (K.written sink.new) (take n (concat pieces.now))) }
    ensures fault { OnErr result (K.counts sink.new ≡ with_fault (K.counts sink.old)) }
    ensures no_fault { OnOk result (K.counts sink.new ≡ K.counts sink.old) }
    ensures only { IsOkUnless result IpcError.WriteFault }
{
    for piece in pieces {
        match write_all(sink, piece.as_slice()) {
            Ok(()) => {}
            Err(_short) => return Err(IpcError::WriteFault),
        }
    }
    Ok(())
}
