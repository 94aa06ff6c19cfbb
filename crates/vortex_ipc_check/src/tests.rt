use std::alloc::Global;
use std::test::Fail;
use vortex_buffer::ByteBuffer;
use vortex_encodings::ArrayRegistry;
use vortex_ipc::{
    BufMessageReader, BytesQueue, DecoderMessage, EncoderMessage, IpcError, MessageDecoder,
    MessageEncoder, PollRead, SyncMessageReader, VecSource,
};

/// The length and the header of a buffer message whose body is told to have 2^63 bytes.
const LONG_BODY: [u8; 68] = [
    0x40, 0x00, 0x00, 0x00, 0x18, 0x00, 0x00, 0x00, 0x00, 0x00, 0x00, 0x00, 0x0c, 0x00, 0x16, 0x00,
    0x14, 0x00, 0x15, 0x00, 0x10, 0x00, 0x08, 0x00, 0x00, 0x00, 0x00, 0x00, 0x10, 0x00, 0x00, 0x00,
    0x00, 0x00, 0x00, 0x00, 0x00, 0x00, 0x00, 0x00, 0x00, 0x00, 0x00, 0x80, 0x10, 0x00, 0x00, 0x00,
    0x00, 0x02, 0x00, 0x00, 0x06, 0x00, 0x05, 0x00, 0x04, 0x00, 0x00, 0x00, 0x08, 0x00, 0x00, 0x00,
    0x00, 0x00, 0x00, 0x00,
];

/// The bytes of a message of a buffer.
fn message(alloc: Global, body: &[u8]) -> Result<Vec<u8>, IpcError> {
    let Ok(buffer) = ByteBuffer::from_slice(alloc, body) else {
        return Err(IpcError::OutOfMemory);
    };
    let pieces = MessageEncoder.encode(alloc, EncoderMessage::Buffer(&buffer))?;
    let mut bytes = Vec::new(alloc);
    for piece in &pieces {
        bytes.extend_from_slice(piece.as_slice())?;
    }
    Ok(bytes)
}

/// Whether no other buffer shares the bytes of a message of a buffer.
fn is_alone(message: &DecoderMessage) -> Option<bool> {
    match message {
        DecoderMessage::Buffer(body) => Some(body.inner().is_unique()),
        DecoderMessage::Array(_) | DecoderMessage::DType(_) => None,
    }
}

/// The first message of a buffer. The reader is gone then.
fn first_of(alloc: Global, whole: &ByteBuffer) -> Result<DecoderMessage, IpcError> {
    let Ok(given) = whole.try_clone(alloc) else {
        return Err(IpcError::OutOfMemory);
    };
    let mut reader = BufMessageReader::new(alloc, given, ArrayRegistry::canonical_only())?;
    reader.next(alloc).unwrap_or(Err(IpcError::UnexpectedEnd))
}

/// Whether a body is alone while the buffer that it was read from is there, and when that is gone.
fn alone_in_a_buffer(alloc: Global, body: &[u8]) -> Result<[Option<bool>; 2], IpcError> {
    let Ok(whole) = ByteBuffer::from_vec(alloc, message(alloc, body)?) else {
        return Err(IpcError::OutOfMemory);
    };
    let first = first_of(alloc, &whole)?;
    let beside = is_alone(&first);
    drop(whole);
    Ok([beside, is_alone(&first)])
}

#[test]
fn a_body_is_shared_with_the_buffer(rt: HostRuntime) -> Result<(), Fail> {
    let shared = Ok([Some(false), Some(true)]);
    assert_eq!(rt; alone_in_a_buffer(rt.alloc(), &[1, 2, 3]), shared);
    assert_eq!(rt; alone_in_a_buffer(rt.alloc(), &[7; 4096]), shared);
    Ok(())
}

/// Two messages that came to a queue, and stand in one piece there. The queue is gone then.
fn two_of(alloc: Global, body: &[u8]) -> Result<(PollRead, PollRead), IpcError> {
    let bytes = message(alloc, body)?;
    let mut queue = BytesQueue::new(alloc)?;
    queue.push(alloc, &bytes)?;
    queue.push(alloc, &bytes)?;
    let mut decoder = MessageDecoder::new(ArrayRegistry::canonical_only());
    let first = decoder.read_next(alloc, &mut queue)?;
    let second = decoder.read_next(alloc, &mut queue)?;
    Ok((first, second))
}

/// Whether no other buffer shares the bytes of what was read.
fn read_alone(read: &PollRead) -> Option<bool> {
    match read {
        PollRead::Some(message) => is_alone(message),
        PollRead::NeedMore(_) => None,
    }
}

/// Whether a body is alone while that of a message of the same piece is there, and when that is gone.
fn alone_in_a_queue(alloc: Global, body: &[u8]) -> Result<[Option<bool>; 2], IpcError> {
    let (first, second) = two_of(alloc, body)?;
    let beside = read_alone(&first);
    drop(second);
    Ok([beside, read_alone(&first)])
}

#[test]
fn bodies_of_one_piece_are_shared(rt: HostRuntime) -> Result<(), Fail> {
    let shared = Ok([Some(false), Some(true)]);
    assert_eq!(rt; alone_in_a_queue(rt.alloc(), &[1, 2, 3]), shared);
    assert_eq!(rt; alone_in_a_queue(rt.alloc(), &[7; 4096]), shared);
    Ok(())
}

/// The number of the error with which the first message is refused that stands behind these bytes, with
/// others and an end behind them.
fn refusal_of(alloc: Global, front: &[u8]) -> Result<Option<u8>, IpcError> {
    let mut bytes = Vec::from_slice(alloc, front)?;
    bytes.extend_from_slice(&[0; 1000])?;
    let source = VecSource::new(bytes, Vec::new(alloc), Vec::new(alloc));
    let mut reader = SyncMessageReader::new(alloc, source, ArrayRegistry::canonical_only())?;
    match reader.next(alloc) {
        Some(Err(error)) => Ok(Some(error.number())),
        _ => Ok(None),
    }
}

#[test]
fn a_length_that_lies_is_an_unexpected_end(rt: HostRuntime) -> Result<(), Fail> {
    let end = Ok(Some(IpcError::UnexpectedEnd.number()));
    assert_eq!(rt; refusal_of(rt.alloc(), &[255; 4]), end);
    assert_eq!(rt; refusal_of(rt.alloc(), &LONG_BODY), end);
    Ok(())
}
