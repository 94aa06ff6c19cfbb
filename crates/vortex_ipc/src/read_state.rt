//! Messages that are read from a source, which is lent at each call.

ghost use Rattle.std.specs.Prelude.{◌≡◌, ◌≤◌, true, None, Some, Err, [], length, min, IfOk, MatchResult};
ghost use Rattle.vortex_stream.specs.Counts.{counts_of_read, raised_by};
ghost use Rattle.vortex_ipc.specs.Decoder.{fresh};
ghost use Rattle.vortex_encodings.specs.Encodings.{names_of};
ghost use Rattle.vortex_ipc.specs.ArrayReader.{with_done};
ghost use Rattle.vortex_ipc.specs.Reader.{SourceReads, is_done, started};
ghost use Rattle.vortex_ipc.specs.inner.Pieces.{GavePiece};
ghost use Rattle.vortex_ipc.specs.inner.Came.{Came, IsReady, at_end};

use crate::decoder::MessageDecoder;
use crate::message::{DecoderMessage, PollRead};
use crate::queue::BytesQueue;
use std::alloc::Global;
use std::marker::Model;
use vortex_encodings::ArrayRegistry;
use vortex_stream::{IpcError, MessageKind, Source, SourceFailed};

/// How many bytes a read asks for at most.
const MOST_ASKED: usize = 65_536;

/// The state of a reader of messages without its source. Contracts see the names of the encodings
/// that it holds, whether it is done, and what it counted.
#[derive(Drop)]
pub struct ReadState {
    decoder: MessageDecoder,
    queue: BytesQueue,
    /// What a read fills.
    piece: Vec<u8>,
    done: bool,
    reads: u64,
    given: u128,
    max_reads: u64,
}

impl Model for ReadState {
    ghost use Rattle.std.specs.Prelude.{◌≡◌, ◌≤◌, false, length};
    ghost use Rattle.vortex_ipc.specs.Reader.{ReaderState};
    ghost use Rattle.vortex_ipc.specs.inner.Pieces.{GavePiece};
    ghost use Rattle.vortex_ipc.specs.inner.Came.{IsReady};

    ghost Value = { ReaderState };

    ghost view = { λ s. record {
      held = s.decoder.held;
      done = s.done;
      reads = s.reads;
      given = s.given;
      most = s.max_reads;
    } };

    ghost invariant = { λ s. (length s.piece.items ≡ 65536) × (s.reads ≤ s.max_reads)
        × (s.done ≡ false → s.reads ≤ s.given) × IsReady s.decoder.held s.done s.decoder s.queue };
}

/// What one message took: how many reads were made, how many bytes they gave, and the answer.
#[derive(Drop)]
struct Taken {
    reads: u64,
    given: u128,
    answer: Option<Result<DecoderMessage, IpcError>>,
}

impl ReadState {
    /// The state of a reader that makes so many reads at most.
    pub fn new(
        alloc: Global,
        registry: ArrayRegistry,
        max_reads: u64,
    ) -> Result<ReadState, IpcError>
        ensures { MatchResult result
            (λ s. s ≡ started (names_of registry) max_reads)
            (λ e. e ≡ IpcError.OutOfMemory) }
    {
        Ok(ReadState {
            decoder: MessageDecoder::new(registry),
            queue: BytesQueue::new(alloc)?,
            piece: Vec::from_elem(alloc, 0, MOST_ASKED)?,
            done: false,
            reads: 0,
            given: 0,
            max_reads,
        })
    }

    /// Reads the next message, of whatever kind. No byte behind it is taken.
    ///
    /// There is none where the source tells its end before the first byte, and after an error.
    pub fn next<S: Source>(
        &mut self,
        alloc: Global,
        source: &mut S,
    ) -> Option<Result<DecoderMessage, IpcError>>
        ensures { SourceReads None self.old self.new (S.counts source.old) (S.counts source.new)
            (S.rest source.old) (S.rest source.new) result }
    {
        self.next_wanted(alloc, source, None)
    }

    /// The same, where the next message is to be of this kind.
    pub fn next_of<S: Source>(
        &mut self,
        alloc: Global,
        source: &mut S,
        kind: MessageKind,
    ) -> Option<Result<DecoderMessage, IpcError>>
        ensures { SourceReads (Some kind) self.old self.new (S.counts source.old)
            (S.counts source.new) (S.rest source.old) (S.rest source.new) result }
    {
        self.next_wanted(alloc, source, Some(kind))
    }

    /// No more is read.
    pub(crate) fn stop(&mut self)
        ensures { self.new ≡ with_done true self.old }
    {
        self.done = true;
    }

    #[tactic(auto, using(crate::proofs::States::goes_on, crate::proofs::States::stays_done, crate::proofs::States::still_within, crate::proofs::States::still_gives))]
    fn next_wanted<S: Source>(
        &mut self,
        alloc: Global,
        source: &mut S,
        wanted: Option<MessageKind>,
    ) -> Option<Result<DecoderMessage, IpcError>>
        ensures { SourceReads wanted self.old self.new (S.counts source.old) (S.counts source.new)
            (S.rest source.old) (S.rest source.new) result }
    {
        if self.done {
            return None;
        }
        let most = self.max_reads - self.reads;
        let Taken {
            reads,
            given,
            answer,
        } = read_message(
            alloc,
            source,
            &mut self.decoder,
            &mut self.queue,
            &mut self.piece,
            wanted,
            most,
        );
        self.reads += reads;
        self.given = self.given.saturating_add(given);
        self.done = is_done(&answer);
        answer
    }
}

/// Whether a reader is done after this answer.
fn is_done(answer: &Option<Result<DecoderMessage, IpcError>>) -> bool
    ensures { result ≡ is_done answer.now }
{
    match answer {
        Some(Ok(_)) => false,
        Some(Err(_)) | None => true,
    }
}

/// Reads so many bytes at most into a prefix of `piece`, and tells how many.
fn read_piece<S: Source>(
    source: &mut S,
    piece: &mut [u8],
    missing: usize,
) -> Result<usize, SourceFailed>
    ensures bytes { GavePiece (S.rest source.old) (S.rest source.new) piece.new
        (min missing (length piece.old)) result }
    ensures len { length piece.new ≡ length piece.old }
    ensures bound { IfOk result (λ count. count ≤ min missing (length piece.old)) }
    ensures counted { S.counts source.new ≡ raised_by (S.counts source.old)
        (counts_of_read result (min missing (length piece.old))) }
{
    let room = missing.min(piece.len());
    source.read(&mut piece[..room])
}

/// Reads one message with a decoder between two messages and a queue of no bytes.
fn read_message<S: Source>(
    alloc: Global,
    source: &mut S,
    decoder: &mut MessageDecoder,
    queue: &mut BytesQueue,
    piece: &mut [u8],
    wanted: Option<MessageKind>,
    most: u64,
) -> Taken
    requires decoder { decoder.old ≡ fresh decoder.old.held }
    requires queue { queue.old ≡ [] }
    requires piece { length piece.old ≡ 65536 }
    ensures came { Came decoder.old.held wanted most (S.counts source.old) (S.counts source.new)
        (S.rest source.old) (S.rest source.new) result }
    ensures piece { length piece.new ≡ 65536 }
    ensures held { decoder.new.held ≡ decoder.old.held }
    ensures ready { IsReady decoder.old.held (is_done result.answer) decoder.new queue.new }
{
    let mut given: u128 = 0;
    let mut missing = 4;
    for made in 0..most {
        let reads = made + 1;
        let count = match read_piece(source, piece, missing) {
            Ok(0) => return ended(reads, given),
            Ok(count) => count,
            Err(SourceFailed) => return failed(reads, given, IpcError::ReadFault),
        };
        given += count as u128;
        if let Err(error) = queue.push(alloc, &piece[..count]) {
            return failed(reads, given, error);
        }
        match decoder.read_wanted(alloc, queue, wanted) {
            Ok(PollRead::Some(message)) => {
                return Taken {
                    reads,
                    given,
                    answer: Some(Ok(message)),
                };
            }
            Ok(PollRead::NeedMore(size)) => missing = size - queue.len(),
            Err(error) => return failed(reads, given, error),
        }
    }
    failed(most, given, IpcError::ReadLimit)
}

/// An error after so many reads and bytes.
fn failed(reads: u64, given: u128, error: IpcError) -> Taken
    ensures { result ≡ record { reads = reads; given = given; answer = Some (Err error) } }
{
    Taken {
        reads,
        given,
        answer: Some(Err(error)),
    }
}

/// The end after so many reads and bytes.
fn ended(reads: u64, given: u128) -> Taken
    ensures { result ≡ record { reads = reads; given = given; answer = at_end given } }
{
    let answer = if given == 0 {
        None
    } else {
        Some(Err(IpcError::UnexpectedEnd))
    };
    Taken {
        reads,
        given,
        answer,
    }
}
