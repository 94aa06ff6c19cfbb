//! Messages that are read from bytes in hand.

ghost use Rattle.std.specs.Prelude.{◌≡◌, false, MatchResult};
ghost use Rattle.vortex_encodings.specs.Encodings.{names_of};
ghost use Rattle.vortex_ipc.specs.Reader.{BufReads};

use crate::decoder::MessageDecoder;
use crate::message::{DecoderMessage, PollRead};
use crate::queue::BytesQueue;
use std::alloc::Global;
use std::marker::Model;
use vortex_buffer::ByteBuffer;
use vortex_encodings::ArrayRegistry;
use vortex_stream::IpcError;

/// A reader of the messages that stand in a buffer. Contracts see the names of the encodings that it
/// holds, the bytes that are left, and whether it is done.
#[derive(Drop)]
pub struct BufMessageReader {
    decoder: MessageDecoder,
    bytes: BytesQueue,
    done: bool,
}

impl Model for BufMessageReader {
    ghost use Rattle.std.specs.Prelude.{◌≡◌, false};
    ghost use Rattle.vortex_ipc.specs.Decoder.{fresh};
    ghost use Rattle.vortex_ipc.specs.Reader.{BufReaderState};

    ghost Value = { BufReaderState };

    ghost view = { λ r. record { held = r.decoder.held; rest = r.bytes; done = r.done } };

    ghost invariant = { λ r. r.done ≡ false → r.decoder ≡ fresh r.decoder.held };
}

impl BufMessageReader {
    /// A reader of the messages of a buffer, whose arrays have encodings of this registry.
    pub fn new(
        alloc: Global,
        buffer: ByteBuffer,
        registry: ArrayRegistry,
    ) -> Result<BufMessageReader, IpcError>
        ensures { MatchResult result
            (λ r. r ≡ record { held = names_of registry; rest = buffer.bytes; done = false })
            (λ e. e ≡ IpcError.OutOfMemory) }
    {
        Ok(BufMessageReader {
            decoder: MessageDecoder::new(registry),
            bytes: BytesQueue::of(alloc, buffer),
            done: false,
        })
    }

    /// The next message, where a byte is left. Its body stays shared with the buffer.
    ///
    /// A message that is cut is an unexpected end. After an error there is no other message.
    #[tactic(auto, using(crate::proofs::BufLemmas::buf_message, crate::proofs::BufLemmas::buf_fresh, crate::proofs::BufLemmas::buf_cut, crate::proofs::BufLemmas::buf_message_holds, crate::proofs::BufLemmas::buf_cut_holds, crate::proofs::BufLemmas::buf_fails))]
    pub fn next(&mut self, alloc: Global) -> Option<Result<DecoderMessage, IpcError>>
        ensures { BufReads self.old result self.new }
    {
        if self.done || self.bytes.len() == 0 {
            self.done = true;
            return None;
        }
        let poll = self.decoder.read_next(alloc, &mut self.bytes);
        match poll {
            Ok(PollRead::Some(message)) => Some(Ok(message)),
            Ok(PollRead::NeedMore(_)) => {
                self.done = true;
                Some(Err(IpcError::UnexpectedEnd))
            }
            Err(error) => {
                self.done = true;
                Some(Err(error))
            }
        }
    }
}
