//! Messages that are read from a source.

ghost use Rattle.std.specs.Prelude.{◌≡◌, ◌-◌, ◌^◌, None, Some, MatchResult};
ghost use Rattle.vortex_encodings.specs.Encodings.{names_of};
ghost use Rattle.vortex_ipc.specs.Reader.{SourceReads, started};

use crate::message::DecoderMessage;
use crate::read_state::ReadState;
use std::alloc::Global;
use vortex_encodings::ArrayRegistry;
use vortex_stream::{IpcError, MessageKind, Source};

/// A reader of the messages of a source: the state of a reader beside its source.
#[derive(Drop)]
pub struct SyncMessageReader<S> {
    state: ReadState,
    source: S,
}

impl<S: Source + Drop> SyncMessageReader<S> {
    /// A reader of the messages of a source, whose arrays have encodings of this registry.
    pub fn new(
        alloc: Global,
        source: S,
        registry: ArrayRegistry,
    ) -> Result<SyncMessageReader<S>, IpcError>
        ensures { MatchResult result
            (λ r. r ≡ record {
              state = started (names_of registry) (2 ^ 64 - 1);
              source = source;
            })
            (λ e. e ≡ IpcError.OutOfMemory) }
    {
        SyncMessageReader::with_max_reads(alloc, source, registry, u64::MAX)
    }

    /// The same, which makes so many reads at most.
    pub fn with_max_reads(
        alloc: Global,
        source: S,
        registry: ArrayRegistry,
        max_reads: u64,
    ) -> Result<SyncMessageReader<S>, IpcError>
        ensures { MatchResult result
            (λ r. r ≡ record {
              state = started (names_of registry) max_reads;
              source = source;
            })
            (λ e. e ≡ IpcError.OutOfMemory) }
    {
        match ReadState::new(alloc, registry, max_reads) {
            Ok(state) => Ok(SyncMessageReader { state, source }),
            Err(error) => Err(error),
        }
    }

    /// Reads the next message, of whatever kind. No byte behind it is taken.
    ///
    /// There is none where the source tells its end before the first byte, and after an error.
    pub fn next(&mut self, alloc: Global) -> Option<Result<DecoderMessage, IpcError>>
        ensures { SourceReads None self.old.state self.new.state (S.counts self.old.source)
            (S.counts self.new.source) (S.rest self.old.source) (S.rest self.new.source) result }
    {
        self.state.next(alloc, &mut self.source)
    }

    /// The same, where the next message is to be of this kind.
    pub fn next_of(
        &mut self,
        alloc: Global,
        kind: MessageKind,
    ) -> Option<Result<DecoderMessage, IpcError>>
        ensures { SourceReads (Some kind) self.old.state self.new.state (S.counts self.old.source)
            (S.counts self.new.source) (S.rest self.old.source) (S.rest self.new.source) result }
    {
        self.state.next_of(alloc, &mut self.source, kind)
    }
}
