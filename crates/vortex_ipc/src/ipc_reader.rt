//! Arrays that are read from a source.

ghost use Rattle.std.specs.Prelude.{◌≡◌, ◌⊎◌, ◌-◌, ◌^◌, None, Some, IfErr, IfOk, MatchResult};
ghost use Rattle.vortex_dtype.specs.DTypes.{term_of};
ghost use Rattle.vortex_encodings.specs.Encodings.{names_of};
ghost use Rattle.vortex_node_rows.specs.Encodings.{encoding_in};
ghost use Rattle.vortex_node_rows.specs.RowsOf.{rows_of};
ghost use Rattle.vortex_ipc.specs.ArrayReader.{FailsToOpen, Opens, ReadsArray};

use crate::message::DecoderMessage;
use crate::read_state::ReadState;
use std::alloc::Global;
use vortex_array::{Array, ArrayContext, ArrayError, ArrayParts};
use vortex_dtype::DType;
use vortex_encodings::ArrayRegistry;
use vortex_stream::{IpcError, MessageKind, Source};

/// A reader of a stream of arrays: the state of a reader of messages beside its source, and the type
/// that the first message told.
#[derive(Drop)]
pub struct SyncIPCReader<S> {
    state: ReadState,
    source: S,
    dtype: DType,
}

impl<S: Source + Drop> SyncIPCReader<S> {
    /// A reader of the arrays of a source, whose encodings are those of this registry. It reads the
    /// first message, which tells the type; after an error the source is given back.
    pub fn try_new(
        alloc: Global,
        source: S,
        registry: ArrayRegistry,
    ) -> Result<SyncIPCReader<S>, (IpcError, S)>
        ensures { MatchResult result
            (λ r. Opens (names_of registry) (2 ^ 64 - 1) (S.counts source) (S.counts r.source)
            (S.rest source) (S.rest r.source) r.state (term_of r.dtype))
            (λ e. FailsToOpen (names_of registry) (2 ^ 64 - 1) (S.counts source) (S.counts e.1)
            (S.rest source) (S.rest e.1) e.0) }
    {
        SyncIPCReader::with_max_reads(alloc, source, registry, u64::MAX)
    }

    /// The same, which makes so many reads at most.
    #[tactic(auto, using(crate::proofs::ArrayReaderLemmas::opens, crate::proofs::ArrayReaderLemmas::no_memory, crate::proofs::ArrayReaderLemmas::no_message, crate::proofs::ArrayReaderLemmas::no_type, crate::proofs::ArrayReaderLemmas::no_array_asked, crate::proofs::ArrayReaderLemmas::no_buffer_asked))]
    pub fn with_max_reads(
        alloc: Global,
        source: S,
        registry: ArrayRegistry,
        max_reads: u64,
    ) -> Result<SyncIPCReader<S>, (IpcError, S)>
        ensures { MatchResult result
            (λ r. Opens (names_of registry) max_reads (S.counts source) (S.counts r.source)
            (S.rest source) (S.rest r.source) r.state (term_of r.dtype))
            (λ e. FailsToOpen (names_of registry) max_reads (S.counts source) (S.counts e.1)
            (S.rest source) (S.rest e.1) e.0) }
    {
        let mut source = source;
        let mut state = match ReadState::new(alloc, registry, max_reads) {
            Ok(state) => state,
            Err(error) => return Err((error, source)),
        };
        match state.next_of(alloc, &mut source, MessageKind::DType) {
            Some(Ok(DecoderMessage::DType(dtype))) => Ok(SyncIPCReader {
                state,
                source,
                dtype,
            }),
            Some(Ok(DecoderMessage::Array(_))) => unreachable!(),
            Some(Ok(DecoderMessage::Buffer(_))) => unreachable!(),
            Some(Err(error)) => Err((error, source)),
            None => Err((IpcError::WrongKind { found: None }, source)),
        }
    }

    /// The type of the arrays.
    pub fn dtype(&self) -> &DType
        ensures { result.now ≡ self.now.dtype }
    {
        &self.dtype
    }

    /// Reads the next array. No byte behind its message is taken.
    ///
    /// There is none where the source tells its end before the first byte, and after an error.
    #[tactic(auto, using(crate::proofs::ArrayReaderLemmas::reads_none, crate::proofs::ArrayReaderLemmas::reads_error, crate::proofs::ArrayReaderLemmas::reads_array, crate::proofs::ArrayReaderLemmas::reads_no_rows, crate::proofs::ArrayReaderLemmas::no_type_wanted, crate::proofs::ArrayReaderLemmas::no_buffer_wanted))]
    pub fn next(&mut self, alloc: Global) -> Option<Result<Array, IpcError>>
        ensures array { ReadsArray (term_of self.old.dtype) self.old.state self.new.state
            (S.counts self.old.source) (S.counts self.new.source) (S.rest self.old.source)
            (S.rest self.new.source) result }
        ensures dtype { self.new.dtype ≡ self.old.dtype }
    {
        match self
            .state
            .next_of(alloc, &mut self.source, MessageKind::Array)
        {
            Some(Ok(DecoderMessage::Array((parts, names, rows)))) => {
                match array_of(alloc, &parts, &names, &self.dtype, rows) {
                    Ok(array) => Some(Ok(array)),
                    Err(error) => {
                        self.state.stop();
                        Some(Err(error))
                    }
                }
            }
            Some(Ok(DecoderMessage::Buffer(_))) => unreachable!(),
            Some(Ok(DecoderMessage::DType(_))) => unreachable!(),
            Some(Err(error)) => Some(Err(error)),
            None => None,
        }
    }
}

/// The array of so many rows of the type.
fn array_of(
    alloc: Global,
    parts: &ArrayParts,
    names: &ArrayContext,
    dtype: &DType,
    rows: usize,
) -> Result<Array, IpcError>
    ensures rows { IfOk result (λ a.
        rows_of (encoding_in names.now) parts.now (term_of dtype.now) rows ≡ Some a.rows) }
    ensures dtype { IfOk result (λ a. a.dtype ≡ term_of dtype.now) }
    ensures stopped { IfErr result (λ e. (e ≡ IpcError.OutOfMemory)
        ⊎ ((e ≡ IpcError.MalformedArray)
        × (rows_of (encoding_in names.now) parts.now (term_of dtype.now) rows ≡ None))) }
{
    match parts.decode(alloc, names, dtype, rows) {
        Ok(array) => Ok(array),
        Err(ArrayError::Malformed) => Err(IpcError::MalformedArray),
        Err(_) => Err(IpcError::OutOfMemory),
    }
}
