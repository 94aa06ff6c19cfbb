//! One happy path of each call, and the worked rows.

use crate::*;
use std::alloc::Global;
use vortex_encodings::ArrayRegistry;

/// The message of the buffer [1, 2, 3] of alignment 0.
pub(crate) const BUFFER: [u8; 71] = [
    64, 0, 0, 0, 24, 0, 0, 0, 0, 0, 0, 0, 12, 0, 22, 0, 20, 0, 21, 0, 16, 0, 8, 0, 0, 0, 0, 0, 16,
    0, 0, 0, 0, 0, 0, 0, 3, 0, 0, 0, 0, 0, 0, 0, 16, 0, 0, 0, 0, 2, 0, 0, 6, 0, 5, 0, 4, 0, 0, 0,
    8, 0, 0, 0, 0, 0, 0, 0, 1, 2, 3,
];

/// What was read, in short.
#[derive(Clone, Copy, Debug, PartialEq, Eq)]
pub(crate) enum Read {
    Array(usize),
    Buffer(usize),
    DType,
    NeedMore(usize),
    Failed(IpcError),
}

pub(crate) fn short(message: &DecoderMessage) -> Read {
    match message {
        DecoderMessage::Array(array) => Read::Array(array.2),
        DecoderMessage::Buffer(buffer) => Read::Buffer(buffer.len()),
        DecoderMessage::DType(_) => Read::DType,
    }
}

fn short_poll(poll: &Result<PollRead, IpcError>) -> Read {
    match poll {
        Ok(PollRead::Some(message)) => short(message),
        Ok(PollRead::NeedMore(size)) => Read::NeedMore(*size),
        Err(error) => Read::Failed(*error),
    }
}

fn decoder() -> MessageDecoder {
    MessageDecoder::new(ArrayRegistry::canonical_only())
}

/// A queue of these bytes.
fn queue_of(alloc: Global, bytes: &[u8]) -> Result<BytesQueue, IpcError> {
    let mut queue = BytesQueue::new(alloc)?;
    queue.push(alloc, bytes)?;
    Ok(queue)
}

fn polled(alloc: Global, bytes: &[u8]) -> Result<PollRead, IpcError> {
    let mut queue = queue_of(alloc, bytes)?;
    decoder().read_next(alloc, &mut queue)
}

/// The answer to these bytes.
fn decoded(alloc: Global, bytes: &[u8]) -> Read {
    short_poll(&polled(alloc, bytes))
}

/// The answer to a message with another byte at `place`.
fn decoded_with(alloc: Global, message: &[u8], place: usize, byte: u8) -> Read {
    match message.to_vec(alloc) {
        Ok(mut bytes) => {
            if let Some(old) = bytes.get_mut(place) {
                *old = byte;
            }
            decoded(alloc, &bytes)
        }
        Err(_) => Read::Failed(IpcError::OutOfMemory),
    }
}

#[test]
fn fewer_bytes_than_a_part(rt: HostRuntime) {
    assert_eq!(rt; decoded(rt.alloc(), &BUFFER[..0]), Read::NeedMore(4));
    assert_eq!(rt; decoded(rt.alloc(), &BUFFER[..3]), Read::NeedMore(4));
    assert_eq!(rt; decoded(rt.alloc(), &BUFFER[..4]), Read::NeedMore(64));
    assert_eq!(rt; decoded(rt.alloc(), &BUFFER[..67]), Read::NeedMore(64));
    assert_eq!(rt; decoded(rt.alloc(), &BUFFER[..68]), Read::NeedMore(3));
    assert_eq!(rt; decoded(rt.alloc(), &BUFFER[..70]), Read::NeedMore(3));
    assert_eq!(rt; decoded(rt.alloc(), &BUFFER), Read::Buffer(3));
}

#[test]
fn headers_that_are_none(rt: HostRuntime) {
    let none = Read::Failed(IpcError::MalformedHeader);
    assert_eq!(rt; decoded(rt.alloc(), &[0; 4]), none);
    assert_eq!(rt; decoded(rt.alloc(), &[2, 0, 0, 0, 64, 0]), none);
    assert_eq!(rt; decoded_with(rt.alloc(), &BUFFER, 48, 1), none);
    assert_eq!(rt; decoded_with(rt.alloc(), &BUFFER, 49, 0), none);
    assert_eq!(rt; decoded_with(rt.alloc(), &BUFFER, 49, 4), none);
}

/// What a decoder answers to the front and then to the back, and how many bytes are left.
fn in_two(alloc: Global, front: &[u8], back: &[u8]) -> Result<(Read, Read, usize), IpcError> {
    let mut decoder = decoder();
    let mut queue = queue_of(alloc, front)?;
    let first = short_poll(&decoder.read_next(alloc, &mut queue));
    queue.push(alloc, back)?;
    let second = short_poll(&decoder.read_next(alloc, &mut queue));
    Ok((first, second, queue.len()))
}

/// Whether the message of a buffer that comes in two pieces, cut at `place`, is read.
fn cut_at(alloc: Global, place: usize) -> bool {
    let (front, back) = BUFFER.split_at(place.min(71));
    match in_two(alloc, front, back) {
        Ok((Read::NeedMore(_), Read::Buffer(3), 0)) => true,
        _ => false,
    }
}

/// How many cuts are read.
fn cuts(alloc: Global) -> usize {
    let mut count: usize = 0;
    for place in 0..71 {
        if cut_at(alloc, place) {
            count = count.saturating_add(1);
        }
    }
    count
}

#[test]
fn a_message_in_two_pieces(rt: HostRuntime) {
    assert_eq!(rt; cuts(rt.alloc()), 71);
}

/// Three answers to two messages of buffers, where a type is asked for at the second.
fn two_messages(alloc: Global) -> Result<[Read; 3], IpcError> {
    let mut queue = queue_of(alloc, &BUFFER)?;
    queue.push(alloc, &BUFFER)?;
    let mut decoder = decoder();
    let first = short_poll(&decoder.read_next(alloc, &mut queue));
    let kind = MessageKind::DType;
    let second = short_poll(&decoder.read_next_of(alloc, &mut queue, kind));
    let third = short_poll(&decoder.read_next(alloc, &mut queue));
    Ok([first, second, third])
}

#[test]
fn two_messages_in_one_piece(rt: HostRuntime) {
    let found = Some(MessageKind::Buffer);
    let other = Read::Failed(IpcError::WrongKind { found });
    let failed = Read::Failed(IpcError::Failed);
    assert_eq!(rt;
        two_messages(rt.alloc()),
        Ok([Read::Buffer(3), other, failed])
    );
}

/// The message of a type that has 64 bits and a sign, and is never null.
const TYPE: [u8; 116] = [
    64, 0, 0, 0, 24, 0, 0, 0, 0, 0, 0, 0, 12, 0, 22, 0, 20, 0, 21, 0, 16, 0, 8, 0, 0, 0, 0, 0, 16,
    0, 0, 0, 0, 0, 0, 0, 48, 0, 0, 0, 0, 0, 0, 0, 16, 0, 0, 0, 0, 3, 0, 0, 4, 0, 4, 0, 0, 0, 0, 0,
    8, 0, 0, 0, 0, 0, 0, 0, 16, 0, 0, 0, 0, 0, 0, 0, 8, 0, 9, 0, 8, 0, 4, 0, 8, 0, 0, 0, 20, 0, 0,
    0, 3, 0, 0, 0, 0, 0, 0, 0, 8, 0, 6, 0, 4, 0, 5, 0, 8, 0, 0, 0, 7, 0, 0, 0,
];

#[test]
fn types(rt: HostRuntime) {
    assert_eq!(rt; decoded(rt.alloc(), &TYPE), Read::DType);
    let none = Read::Failed(IpcError::MalformedDType);
    assert_eq!(rt; decoded_with(rt.alloc(), &TYPE, 92, 200), none);
}

#[test]
fn lengths_on_which_nothing_is_taken(rt: HostRuntime) {
    let long = Read::NeedMore(4_294_967_295);
    assert_eq!(rt; decoded(rt.alloc(), &[255; 100]), long);
    let body = Read::NeedMore(9_223_372_036_854_775_811);
    assert_eq!(rt; decoded_with(rt.alloc(), &BUFFER, 43, 128), body);
}

#[test]
fn a_body_that_is_no_array(rt: HostRuntime) {
    let none = Read::Failed(IpcError::MalformedArray);
    assert_eq!(rt; decoded_with(rt.alloc(), &TYPE, 49, 1), none);
}
