//! Arrays in messages, and streams of them.

use std::alloc::Global;
use vortex_buffer::ByteBuffer;
use vortex_encodings::ArrayRegistry;
use vortex_ipc::{
    BufMessageReader, DecoderMessage, IpcError, MessageKind, SyncIPCReader, SyncMessageReader,
    VecSource,
};

/// The message of a type that has 64 bits and a sign, and is never null.
const TYPE: [u8; 116] = [
    64, 0, 0, 0, 24, 0, 0, 0, 0, 0, 0, 0, 12, 0, 22, 0, 20, 0, 21, 0, 16, 0, 8, 0, 0, 0, 0, 0, 16,
    0, 0, 0, 0, 0, 0, 0, 48, 0, 0, 0, 0, 0, 0, 0, 16, 0, 0, 0, 0, 3, 0, 0, 4, 0, 4, 0, 0, 0, 0, 0,
    8, 0, 0, 0, 0, 0, 0, 0, 16, 0, 0, 0, 0, 0, 0, 0, 8, 0, 9, 0, 8, 0, 4, 0, 8, 0, 0, 0, 20, 0, 0,
    0, 3, 0, 0, 0, 0, 0, 0, 0, 8, 0, 6, 0, 4, 0, 5, 0, 8, 0, 0, 0, 7, 0, 0, 0,
];

/// The message of an array of 7 and 8, in encoding vortex.primitive.
const ARRAY: [u8; 240] = [
    104, 0, 0, 0, 24, 0, 0, 0, 0, 0, 0, 0, 12, 0, 22, 0, 20, 0, 21, 0, 16, 0, 8, 0, 0, 0, 0, 0, 16,
    0, 0, 0, 0, 0, 0, 0, 132, 0, 0, 0, 0, 0, 0, 0, 16, 0, 0, 0, 0, 1, 0, 0, 8, 0, 12, 0, 4, 0, 8,
    0, 8, 0, 0, 0, 2, 0, 0, 0, 8, 0, 0, 0, 0, 0, 0, 0, 1, 0, 0, 0, 4, 0, 0, 0, 16, 0, 0, 0, 118,
    111, 114, 116, 101, 120, 46, 112, 114, 105, 109, 105, 116, 105, 118, 101, 0, 0, 0, 0, 7, 0, 0,
    0, 0, 0, 0, 0, 8, 0, 0, 0, 0, 0, 0, 0, 16, 0, 0, 0, 0, 0, 0, 0, 8, 0, 12, 0, 4, 0, 8, 0, 8, 0,
    0, 0, 28, 0, 0, 0, 72, 0, 0, 0, 0, 0, 0, 0, 12, 0, 18, 0, 16, 0, 4, 0, 8, 0, 12, 0, 0, 0, 0, 0,
    16, 0, 0, 0, 20, 0, 0, 0, 24, 0, 0, 0, 28, 0, 0, 0, 0, 0, 0, 0, 0, 0, 0, 0, 0, 0, 0, 0, 0, 0,
    0, 0, 0, 0, 0, 0, 0, 0, 0, 0, 1, 0, 0, 0, 0, 0, 0, 0, 1, 0, 0, 0, 0, 0, 0, 0, 16, 0, 0, 0, 0,
    0, 0, 0, 112, 0, 0, 0,
];

/// These bytes with another byte at `place`.
fn with(alloc: Global, bytes: &[u8], place: usize, byte: u8) -> Result<Vec<u8>, IpcError> {
    let mut bytes = bytes.to_vec(alloc)?;
    if let Some(old) = bytes.get_mut(place) {
        *old = byte;
    }
    Ok(bytes)
}

/// How many rows an array has, and how many names of encodings.
fn parts_of(message: &DecoderMessage) -> Option<(usize, usize)> {
    match message {
        DecoderMessage::Array(array) => Some((array.2, array.1.ids().len())),
        DecoderMessage::Buffer(_) | DecoderMessage::DType(_) => None,
    }
}

/// The parts of the first message, or the number of its error.
type First = Result<Option<(usize, usize)>, u8>;

fn seen(answer: &Option<Result<DecoderMessage, IpcError>>) -> First {
    match answer {
        Some(Ok(message)) => Ok(parts_of(message)),
        Some(Err(error)) => Err(error.number()),
        None => Ok(None),
    }
}

fn read_first(alloc: Global, bytes: Vec<u8>) -> Result<First, IpcError> {
    let Ok(buffer) = ByteBuffer::from_vec(alloc, bytes) else {
        return Err(IpcError::OutOfMemory);
    };
    let mut reader = BufMessageReader::new(alloc, buffer, ArrayRegistry::canonical_only())?;
    Ok(seen(&reader.next(alloc)))
}

/// The first message of the array's bytes up to `end`, with another byte at `place`.
fn first_with(alloc: Global, end: usize, place: usize, byte: u8) -> Result<First, IpcError> {
    let mut bytes = with(alloc, &ARRAY, place, byte)?;
    bytes.truncate(end);
    read_first(alloc, bytes)
}

#[test]
fn an_array_is_read(rt: HostRuntime) {
    let array = Ok(Ok(Some((2, 1))));
    assert_eq!(rt; first_with(rt.alloc(), 240, 64, 2), array);
    assert_eq!(rt; first_with(rt.alloc(), 240, 64, 9), Ok(Ok(Some((9, 1)))));
}

#[test]
fn an_encoding_that_is_not_held(rt: HostRuntime) {
    let unknown = Ok(Err(IpcError::UnknownEncoding.number()));
    assert_eq!(rt; first_with(rt.alloc(), 240, 88, b'V'), unknown);
    assert_eq!(rt; first_with(rt.alloc(), 108, 88, b'V'), unknown);
    let cut = Ok(Err(IpcError::UnexpectedEnd.number()));
    assert_eq!(rt; first_with(rt.alloc(), 108, 88, b'v'), cut);
}

#[test]
fn a_body_without_a_node(rt: HostRuntime) {
    let none = Ok(Err(IpcError::MalformedArray.number()));
    assert_eq!(rt; first_with(rt.alloc(), 240, 236, 255), none);
}

/// A source of these bytes in turn.
fn source(alloc: Global, parts: &[&[u8]]) -> Result<VecSource, IpcError> {
    let mut bytes = Vec::new(alloc);
    for part in parts {
        bytes.extend_from_slice(part)?;
    }
    Ok(VecSource::new(bytes, Vec::new(alloc), Vec::new(alloc)))
}

/// What a reader of messages answers where an array is asked for.
fn asked(alloc: Global, bytes: &[u8]) -> Result<First, IpcError> {
    let source = source(alloc, &[bytes])?;
    let mut reader = SyncMessageReader::new(alloc, source, ArrayRegistry::canonical_only())?;
    Ok(seen(&reader.next_of(alloc, MessageKind::Array)))
}

#[test]
fn an_array_is_asked_for(rt: HostRuntime) {
    assert_eq!(rt; asked(rt.alloc(), &ARRAY), Ok(Ok(Some((2, 1)))));
    let other = IpcError::WrongKind { found: None };
    assert_eq!(rt; asked(rt.alloc(), &TYPE), Ok(Err(other.number())));
}

/// How many rows the next array has, or the number of its error.
fn next_rows(alloc: Global, reader: &mut SyncIPCReader<VecSource>) -> Option<Result<usize, u8>> {
    match reader.next(alloc) {
        Some(Ok(array)) => Some(Ok(array.len())),
        Some(Err(error)) => Some(Err(error.number())),
        None => None,
    }
}

/// Three answers of a reader of arrays.
type Arrays = [Option<Result<usize, u8>>; 3];

fn arrays_of(alloc: Global, parts: &[&[u8]]) -> Result<Arrays, IpcError> {
    let source = source(alloc, parts)?;
    match SyncIPCReader::try_new(alloc, source, ArrayRegistry::canonical_only()) {
        Ok(mut reader) => {
            let first = next_rows(alloc, &mut reader);
            let second = next_rows(alloc, &mut reader);
            Ok([first, second, next_rows(alloc, &mut reader)])
        }
        Err((error, _)) => Err(error),
    }
}

#[test]
fn a_stream_of_arrays(rt: HostRuntime) {
    let two = Some(Ok(2));
    assert_eq!(rt;
        arrays_of(rt.alloc(), &[&TYPE, &ARRAY, &ARRAY]),
        Ok([two, two, None])
    );
    assert_eq!(rt; arrays_of(rt.alloc(), &[&TYPE]), Ok([None, None, None]));
    let none = Err(IpcError::WrongKind { found: None });
    assert_eq!(rt; arrays_of(rt.alloc(), &[]), none);
    let found = Some(MessageKind::Array);
    let other = Err(IpcError::WrongKind { found });
    assert_eq!(rt; arrays_of(rt.alloc(), &[&ARRAY]), other);
}

/// The answers to a stream whose first array tells nine rows.
fn too_many_rows(alloc: Global) -> Result<Arrays, IpcError> {
    let wrong = with(alloc, &ARRAY, 64, 9)?;
    arrays_of(alloc, &[&TYPE, wrong.as_slice(), &ARRAY])
}

#[test]
fn an_array_of_other_rows(rt: HostRuntime) {
    let malformed = Some(Err(IpcError::MalformedArray.number()));
    assert_eq!(rt; too_many_rows(rt.alloc()), Ok([malformed, None, None]));
}

/// Whether the rows of a stream may be null, where so many reads may be made.
fn null_rows(alloc: Global, max_reads: u64) -> Result<bool, IpcError> {
    let source = source(alloc, &[&TYPE])?;
    let registry = ArrayRegistry::canonical_only();
    match SyncIPCReader::with_max_reads(alloc, source, registry, max_reads) {
        Ok(reader) => Ok(reader.dtype().is_nullable()),
        Err((error, _)) => Err(error),
    }
}

#[test]
fn the_type_of_a_stream(rt: HostRuntime) {
    assert_eq!(rt; null_rows(rt.alloc(), 3), Ok(false));
    assert_eq!(rt; null_rows(rt.alloc(), 2), Err(IpcError::ReadLimit));
}
