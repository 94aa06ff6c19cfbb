//! Reading messages from a queue of bytes, in any cutting.

ghost use Rattle.std.specs.Prelude.{◌≡◌, ◌⊎◌, false, None, Some, ◌++◌, length, IfOk, IfErr, IsSome, OnOk};
ghost use Rattle.vortex_flat.specs.Numbers.{little_endian};
ghost use Rattle.vortex_terms.specs.Term.{Term};
ghost use Rattle.vortex_schema.specs.TypeAt.{IsTypeIn};
ghost use Rattle.vortex_dtype.specs.DTypes.{term_of};
ghost use Rattle.vortex_body.specs.Reading.{node_of};
ghost use Rattle.vortex_encodings.specs.Encodings.{names_of};
ghost use Rattle.vortex_ipc.specs.Decoder.{ReadsNext, fresh};
ghost use Rattle.vortex_ipc.specs.Decoding.{is_answered};
ghost use Rattle.vortex_ipc.specs.Queue.{HasLost};
ghost use Rattle.vortex_ipc.specs.inner.Begun.{Answered, Gone, GoneEarly, HeadStandsFor, IsBegun, IsFar, IsTaken, NoBodyBy, NoHeaderBy, StopsBy, begun_bytes, has_failed, taken_bytes};
ghost use Rattle.vortex_ipc.specs.inner.Heads.{IsHeadOf, names_told};

use crate::header::{ContentHead, Head, read_header, read_names};
use crate::message::{DecoderMessage, PollRead};
use crate::queue::BytesQueue;
use std::alloc::Global;
use std::marker::Model;
use std::mem;
use vortex_array::{ArrayContext, ArrayError, ArrayParts};
use vortex_buffer::{Alignment, ByteBuffer};
use vortex_dtype::{DType, DTypeView};
use vortex_encodings::ArrayRegistry;
use vortex_flat::u32_at;
use vortex_stream::{IpcError, MessageKind};

/// A header that was taken, with its length before it.
#[derive(Drop)]
struct TakenHeader {
    prefix: ByteBuffer,
    header: ByteBuffer,
    head: Head,
}

/// What was taken of the present message.
#[derive(Drop)]
enum Begun {
    Nothing,
    /// The length of the header.
    Length(ByteBuffer),
    /// The length and the header.
    Header(TakenHeader),
    /// An earlier call failed.
    Failed,
}

/// A decoder of messages. Contracts see the names of the encodings that it holds, the bytes that it
/// has taken of its present message, and whether an earlier call failed.
///
/// It takes the length of a header, and then the header, as soon as each stands whole in the queue,
/// and keeps them until the message is whole.
#[derive(Drop)]
pub struct MessageDecoder {
    /// The encodings that arrays may have.
    registry: ArrayRegistry,
    begun: Begun,
}

impl Model for MessageDecoder {
    ghost use Rattle.vortex_encodings.specs.Encodings.{names_of};
    ghost use Rattle.vortex_ipc.specs.Decoder.{DecoderState};
    ghost use Rattle.vortex_ipc.specs.inner.Begun.{begun_bytes, has_failed, IsBegun};

    ghost Value = { DecoderState };

    ghost view = { λ d. record {
      held = names_of d.registry;
      begun = begun_bytes d.begun;
      failed = has_failed d.begun;
    } };

    ghost invariant = { λ d. IsBegun (names_of d.registry) d.begun };
}

impl MessageDecoder {
    /// A decoder before its first message, for arrays in the encodings of this registry.
    pub fn new(registry: ArrayRegistry) -> MessageDecoder
        ensures { result ≡ fresh (names_of registry) }
    {
        MessageDecoder {
            registry,
            begun: Begun::Nothing,
        }
    }

    /// Reads the next message, of whatever kind, from the front of the queue.
    ///
    /// After an error each further call fails.
    pub fn read_next(&mut self, alloc: Global, bytes: &mut BytesQueue) -> Result<PollRead, IpcError>
        ensures { ReadsNext None self.old bytes.old result self.new bytes.new }
    {
        self.read_wanted(alloc, bytes, None)
    }

    /// The same, where the next message is to be of this kind.
    pub fn read_next_of(
        &mut self,
        alloc: Global,
        bytes: &mut BytesQueue,
        kind: MessageKind,
    ) -> Result<PollRead, IpcError>
        ensures { ReadsNext (Some kind) self.old bytes.old result self.new bytes.new }
    {
        self.read_wanted(alloc, bytes, Some(kind))
    }

    /// Reads the next message, where a kind is wanted or any.
    #[tactic(auto, using(crate::proofs::Steps::reads_next, crate::proofs::Steps::fails_by))]
    pub(crate) fn read_wanted(
        &mut self,
        alloc: Global,
        bytes: &mut BytesQueue,
        wanted: Option<MessageKind>,
    ) -> Result<PollRead, IpcError>
        ensures { ReadsNext wanted self.old bytes.old result self.new bytes.new }
    {
        let begun = mem::replace(&mut self.begun, Begun::Failed);
        if let Begun::Failed = &begun {
            return Err(IpcError::Failed);
        }
        match step(alloc, self.registry, begun, bytes, wanted) {
            Ok((begun, poll)) => {
                self.begun = begun;
                Ok(poll)
            }
            Err(error) => Err(error),
        }
    }
}

/// Takes what stands there of the present message, and answers.
#[tactic(auto, using(crate::proofs::TakenLemmas::cut_header, crate::proofs::TakenLemmas::cut_length, crate::proofs::TakenLemmas::stops_early, crate::proofs::GoneLemmas::gone_early))]
fn step(
    alloc: Global,
    registry: ArrayRegistry,
    begun: Begun,
    bytes: &mut BytesQueue,
    wanted: Option<MessageKind>,
) -> Result<(Begun, PollRead), IpcError>
    requires begun { IsBegun (names_of registry) begun }
    requires going { has_failed begun ≡ false }
    ensures answered { IfOk result (λ p.
        Answered (names_of registry) wanted (begun_bytes begun ++ bytes.old) p.0 p.1 bytes.new) }
    ensures begun { IfOk result (λ p. IsBegun (names_of registry) p.0) }
    ensures stopped { IfErr result (λ e.
        StopsBy (names_of registry) wanted (begun_bytes begun ++ bytes.old) e
        × Gone (names_of registry) wanted (begun_bytes begun) bytes.old e bytes.new) }
{
    match take_front(alloc, registry, begun, bytes) {
        Ok(Begun::Header(taken)) => take_body(alloc, registry, taken, bytes, wanted),
        Ok(Begun::Length(prefix)) => {
            let size = header_size(prefix.as_slice());
            Ok((Begun::Length(prefix), PollRead::NeedMore(size)))
        }
        Ok(Begun::Nothing) => Ok((Begun::Nothing, PollRead::NeedMore(4))),
        Ok(Begun::Failed) => unreachable!(),
        Err(error) => Err(error),
    }
}

/// Takes the length and the header, as far as they stand there.
#[tactic(auto, using(crate::proofs::QueueLemmas::lost_none, crate::proofs::QueueLemmas::lost_more, crate::proofs::GoneLemmas::early_memory))]
fn take_front(
    alloc: Global,
    registry: ArrayRegistry,
    begun: Begun,
    bytes: &mut BytesQueue,
) -> Result<Begun, IpcError>
    requires begun { IsBegun (names_of registry) begun }
    requires going { has_failed begun ≡ false }
    ensures begun { IfOk result (λ b. IsBegun (names_of registry) b) }
    ensures kept { IfOk result (λ b.
        begun_bytes begun ++ bytes.old ≡ begun_bytes b ++ bytes.new) }
    ensures far { IfOk result (λ b. IsFar b bytes.new) }
    ensures lost { OnOk result (HasLost bytes.old bytes.new) }
    ensures stopped { IfErr result (λ e.
        NoHeaderBy (begun_bytes begun ++ bytes.old) e
        × GoneEarly (begun_bytes begun) bytes.old e bytes.new) }
{
    match begun {
        Begun::Nothing => {
            if bytes.len() < 4 {
                return Ok(Begun::Nothing);
            }
            let Ok(prefix) = bytes.take(alloc, 4) else {
                return Err(IpcError::OutOfMemory);
            };
            take_header(alloc, registry, prefix, bytes)
        }
        Begun::Length(prefix) => take_header(alloc, registry, prefix, bytes),
        Begun::Header(taken) => Ok(Begun::Header(taken)),
        Begun::Failed => unreachable!(),
    }
}

/// How long the header is, as the four bytes before it tell.
#[tactic(auto, unfolding(vortex_flat::specs::Numbers::number))]
fn header_size(prefix: &[u8]) -> usize
    requires { length prefix.now ≡ 4 }
    ensures { result ≡ little_endian prefix.now }
{
    match u32_at(prefix, 0) {
        Ok(size) => size as usize,
        Err(_) => unreachable!(),
    }
}

/// Takes the header behind its length, where it stands there.
#[tactic(auto, using(crate::proofs::QueueLemmas::lost_none, crate::proofs::QueueLemmas::lost_taken, crate::proofs::TakenLemmas::none_taken, crate::proofs::GoneLemmas::gone_header, crate::proofs::GoneLemmas::early_memory, crate::proofs::TakenLemmas::is_taken, crate::proofs::TakenLemmas::taken_parts))]
fn take_header(
    alloc: Global,
    registry: ArrayRegistry,
    prefix: ByteBuffer,
    bytes: &mut BytesQueue,
) -> Result<Begun, IpcError>
    requires { length prefix.bytes ≡ 4 }
    ensures begun { IfOk result (λ b. IsBegun (names_of registry) b) }
    ensures kept { IfOk result (λ b. prefix.bytes ++ bytes.old ≡ begun_bytes b ++ bytes.new) }
    ensures far { IfOk result (λ b. IsFar b bytes.new) }
    ensures lost { OnOk result (HasLost bytes.old bytes.new) }
    ensures stopped { IfErr result (λ e.
        NoHeaderBy (prefix.bytes ++ bytes.old) e
        × GoneEarly prefix.bytes bytes.old e bytes.new) }
{
    let size = header_size(prefix.as_slice());
    if bytes.len() < size {
        return Ok(Begun::Length(prefix));
    }
    let Ok(header) = bytes.take(alloc, size) else {
        return Err(IpcError::OutOfMemory);
    };
    match read_header(header.as_slice(), registry) {
        Ok(head) => Ok(Begun::Header(TakenHeader {
            prefix,
            header,
            head,
        })),
        Err(_) => Err(IpcError::MalformedHeader),
    }
}

/// Whether a message of this kind is answered where a kind is wanted or any.
fn is_answered(wanted: Option<MessageKind>, kind: MessageKind) -> bool
    ensures { result ≡ is_answered wanted kind }
{
    match wanted {
        Some(wanted) => wanted.number() == kind.number(),
        None => true,
    }
}

/// Takes the body behind a header, where it stands there and the message is answered.
#[tactic(auto, using(crate::proofs::TakenLemmas::other_kind, crate::proofs::TakenLemmas::cut_body, crate::proofs::TakenLemmas::has_message, crate::proofs::TakenLemmas::stops_by_body, crate::proofs::TakenLemmas::unknown_encoding, crate::proofs::TakenLemmas::is_head_of, crate::proofs::GoneLemmas::gone_none, crate::proofs::GoneLemmas::gone_memory, crate::proofs::GoneLemmas::gone_body, crate::proofs::QueueLemmas::lost_none, crate::proofs::QueueLemmas::lost_taken))]
fn take_body(
    alloc: Global,
    registry: ArrayRegistry,
    taken: TakenHeader,
    bytes: &mut BytesQueue,
    wanted: Option<MessageKind>,
) -> Result<(Begun, PollRead), IpcError>
    requires { IsTaken (names_of registry) taken }
    ensures answered { IfOk result (λ p.
        Answered (names_of registry) wanted (taken_bytes taken ++ bytes.old) p.0 p.1 bytes.new) }
    ensures begun { IfOk result (λ p. IsBegun (names_of registry) p.0) }
    ensures stopped { IfErr result (λ e.
        StopsBy (names_of registry) wanted (taken_bytes taken ++ bytes.old) e
        × Gone (names_of registry) wanted (taken_bytes taken) bytes.old e bytes.new) }
{
    let _ = registry;
    let head = taken.head;
    if !is_answered(wanted, head.content.kind) {
        return Err(IpcError::WrongKind {
            found: Some(head.content.kind),
        });
    }
    if !head.content.held {
        return Err(IpcError::UnknownEncoding);
    }
    let size = head.body_size as usize;
    if bytes.len() < size {
        return Ok((Begun::Header(taken), PollRead::NeedMore(size)));
    }
    let Ok(body) = bytes.take(alloc, size) else {
        return Err(IpcError::OutOfMemory);
    };
    match message_of(alloc, taken.header.as_slice(), &head.content, body) {
        Ok(message) => Ok((Begun::Nothing, PollRead::Some(message))),
        Err(error) => Err(error),
    }
}

/// The message of this body.
#[tactic(auto, using(crate::proofs::BodyLemmas::array_stands, crate::proofs::BodyLemmas::buffer_stands, crate::proofs::BodyLemmas::type_stands, crate::proofs::BodyLemmas::names_there))]
fn message_of(
    alloc: Global,
    header: &[u8],
    head: &ContentHead,
    body: ByteBuffer,
) -> Result<DecoderMessage, IpcError>
    requires { IsHeadOf header.now head.now }
    ensures message { IfOk result (λ m. HeadStandsFor header.now body.bytes m) }
    ensures stopped { IfErr result (λ e. NoBodyBy head.now body.bytes e) }
{
    match head.kind {
        MessageKind::Array => match read_array(alloc, header, body) {
            Ok((parts, names)) => Ok(DecoderMessage::Array((parts, names, head.rows as usize))),
            Err(error) => Err(error),
        },
        MessageKind::Buffer => {
            let alignment = Alignment::from_exponent(head.exponent);
            Ok(DecoderMessage::Buffer(body.with_alignment(alignment)))
        }
        MessageKind::DType => match read_dtype(alloc, body) {
            Ok(dtype) => Ok(DecoderMessage::DType(dtype)),
            Err(error) => Err(error),
        },
    }
}

/// The node that a body stands for, and the names that the header of the array tells.
fn read_array(
    alloc: Global,
    header: &[u8],
    body: ByteBuffer,
) -> Result<(ArrayParts, ArrayContext), IpcError>
    requires { IsSome (names_told header.now) }
    ensures node { IfOk result (λ a. node_of body.bytes ≡ Some a.0) }
    ensures names { IfOk result (λ a. names_told header.now ≡ Some a.1) }
    ensures stopped { IfErr result (λ e. (e ≡ IpcError.OutOfMemory)
        ⊎ ((e ≡ IpcError.MalformedArray) × (node_of body.bytes ≡ None))) }
{
    match ArrayParts::try_new(alloc, body) {
        Ok(parts) => match read_names(alloc, header) {
            Ok(names) => Ok((parts, names)),
            Err(error) => Err(error),
        },
        Err(ArrayError::Malformed) => Err(IpcError::MalformedArray),
        Err(_) => Err(IpcError::OutOfMemory),
    }
}

/// The type that a body stands for.
fn read_dtype(alloc: Global, body: ByteBuffer) -> Result<DType, IpcError>
    ensures found { IfOk result (λ t. IsTypeIn body.bytes (term_of t)) }
    ensures stopped { IfErr result (λ e. (e ≡ IpcError.OutOfMemory)
        ⊎ ((e ≡ IpcError.MalformedDType) × ((t : Term) → IsTypeIn body.bytes t → ⊥))) }
{
    match DTypeView::root(body) {
        Ok(view) => match view.value(alloc) {
            Ok(dtype) => Ok(dtype),
            Err(_) => Err(IpcError::OutOfMemory),
        },
        Err(_) => Err(IpcError::MalformedDType),
    }
}
