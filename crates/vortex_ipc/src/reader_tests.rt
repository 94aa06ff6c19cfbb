//! The worked rows of the readers.

use crate::tests::{BUFFER, Read, short};
use crate::*;
use std::alloc::Global;
use vortex_buffer::ByteBuffer;
use vortex_encodings::ArrayRegistry;

fn short_answer(answer: &Option<Result<DecoderMessage, IpcError>>) -> Option<Read> {
    match answer {
        Some(Ok(message)) => Some(short(message)),
        Some(Err(error)) => Some(Read::Failed(*error)),
        None => None,
    }
}

fn registry() -> ArrayRegistry {
    ArrayRegistry::canonical_only()
}

/// The first two answers of a reader of bytes in hand.
fn in_hand(alloc: Global, bytes: &[u8]) -> Result<[Option<Read>; 2], IpcError> {
    let bytes = bytes.to_vec(alloc)?;
    let Ok(buffer) = ByteBuffer::from_vec(alloc, bytes) else {
        return Err(IpcError::OutOfMemory);
    };
    let mut reader = BufMessageReader::new(alloc, buffer, registry())?;
    let first = short_answer(&reader.next(alloc));
    Ok([first, short_answer(&reader.next(alloc))])
}

/// What ends inside a message.
const END: Option<Read> = Some(Read::Failed(IpcError::UnexpectedEnd));

/// How many fronts of a message are an unexpected end in hand.
fn ends_in_hand(alloc: Global) -> usize {
    let mut count: usize = 0;
    for size in 1..71 {
        if in_hand(alloc, &BUFFER[..size]) == Ok([END, None]) {
            count = count.saturating_add(1);
        }
    }
    count
}

#[test]
fn bytes_in_hand(rt: HostRuntime) {
    let message = Some(Read::Buffer(3));
    assert_eq!(rt; in_hand(rt.alloc(), &BUFFER), Ok([message, None]));
    assert_eq!(rt; in_hand(rt.alloc(), &[]), Ok([None, None]));
    assert_eq!(rt; ends_in_hand(rt.alloc()), 70);
}

fn source(
    alloc: Global,
    bytes: &[u8],
    size: usize,
    failing: &[u64],
) -> Result<VecSource, IpcError> {
    let sizes = vec![in alloc; size]?;
    Ok(VecSource::new(bytes.to_vec(alloc)?, sizes, failing.to_vec(alloc)?))
}

/// The first two answers of a reader of a source, how many reads were made, and how many bytes given.
type Answers = ([Option<Read>; 2], u128, u128);

/// What a reader of a source that gives so many bytes a read answers.
fn from_source(
    alloc: Global,
    bytes: &[u8],
    size: usize,
    failing: &[u64],
    max_reads: u64,
) -> Result<Answers, IpcError> {
    let mut source = source(alloc, bytes, size, failing)?;
    let mut state = ReadState::new(alloc, registry(), max_reads)?;
    let first = short_answer(&state.next(alloc, &mut source));
    let second = short_answer(&state.next(alloc, &mut source));
    Ok(([first, second], source.read_count(), source.given_count()))
}

#[test]
fn a_source(rt: HostRuntime) {
    let message = Some(Read::Buffer(3));
    let max = u64::MAX;
    let whole = from_source(rt.alloc(), &BUFFER, 100, &[], max);
    assert_eq!(rt; whole, Ok(([message, None], 4, 71)));
    let bytes = from_source(rt.alloc(), &BUFFER, 1, &[], max);
    assert_eq!(rt; bytes, Ok(([message, None], 72, 71)));
    let cut = from_source(rt.alloc(), &BUFFER[..70], 100, &[], max);
    assert_eq!(rt; cut, Ok(([END, None], 4, 70)));
    let none = from_source(rt.alloc(), &[], 100, &[], max);
    assert_eq!(rt; none, Ok(([None, None], 1, 0)));
}

#[test]
fn a_source_that_stops(rt: HostRuntime) {
    let fault = Some(Read::Failed(IpcError::ReadFault));
    let limit = Some(Read::Failed(IpcError::ReadLimit));
    let message = Some(Read::Buffer(3));
    let failing = from_source(rt.alloc(), &BUFFER, 100, &[1], u64::MAX);
    assert_eq!(rt; failing, Ok(([fault, None], 2, 4)));
    let no_read = from_source(rt.alloc(), &BUFFER, 100, &[], 0);
    assert_eq!(rt; no_read, Ok(([limit, None], 0, 0)));
    let one_read = from_source(rt.alloc(), &BUFFER, 100, &[], 1);
    assert_eq!(rt; one_read, Ok(([limit, None], 1, 4)));
    let three_reads = from_source(rt.alloc(), &BUFFER, 100, &[], 3);
    assert_eq!(rt; three_reads, Ok(([message, limit], 3, 71)));
}

/// Whether the end behind so many bytes is an unexpected one.
fn ends_at(alloc: Global, size: usize) -> bool {
    match from_source(alloc, &BUFFER[..size.min(71)], 50, &[], u64::MAX) {
        Ok(found) => {
            let answers = found.0;
            answers == [END, None]
        }
        Err(_) => false,
    }
}

/// How many fronts of a message are an unexpected end.
fn ends(alloc: Global) -> usize {
    let mut count: usize = 0;
    for size in 1..71 {
        if ends_at(alloc, size) {
            count = count.saturating_add(1);
        }
    }
    count
}

#[test]
fn an_end_at_each_place(rt: HostRuntime) {
    assert_eq!(rt; ends(rt.alloc()), 70);
}

/// The answers of a reader that is asked for a type, and then for any message.
fn of_a_kind(alloc: Global) -> Result<[Option<Read>; 2], IpcError> {
    let source = source(alloc, &BUFFER, 100, &[])?;
    let mut reader = SyncMessageReader::new(alloc, source, registry())?;
    let first = short_answer(&reader.next_of(alloc, MessageKind::DType));
    Ok([first, short_answer(&reader.next(alloc))])
}

#[test]
fn a_reader_of_a_kind(rt: HostRuntime) {
    let found = Some(MessageKind::Buffer);
    let other = Some(Read::Failed(IpcError::WrongKind { found }));
    assert_eq!(rt; of_a_kind(rt.alloc()), Ok([other, None]));
}

/// The answer of a reader that makes one read.
fn of_one_read(alloc: Global) -> Result<Option<Read>, IpcError> {
    let source = source(alloc, &BUFFER, 100, &[])?;
    let mut reader = SyncMessageReader::with_max_reads(alloc, source, registry(), 1)?;
    Ok(short_answer(&reader.next(alloc)))
}

#[test]
fn a_reader_of_one_read(rt: HostRuntime) {
    let limit = Some(Read::Failed(IpcError::ReadLimit));
    assert_eq!(rt; of_one_read(rt.alloc()), Ok(limit));
}

/// How many bytes the first of two messages takes from a source.
fn first_of_two(alloc: Global) -> Result<u128, IpcError> {
    let mut bytes = BUFFER.to_vec(alloc)?;
    bytes.extend_from_slice(&BUFFER)?;
    let mut source = source(alloc, &bytes, 1000, &[])?;
    let mut state = ReadState::new(alloc, registry(), 9)?;
    let _ = state.next(alloc, &mut source);
    Ok(source.given_count())
}

#[test]
fn no_byte_of_the_second_message(rt: HostRuntime) {
    assert_eq!(rt; first_of_two(rt.alloc()), Ok(71));
}

/// What a reader that makes so many reads answers to the message of a buffer of 200,000 zeros.
fn of_a_long_body(alloc: Global, max_reads: u64) -> Result<Answers, IpcError> {
    let mut front = BUFFER;
    front[36] = 0x40;
    front[37] = 0x0d;
    front[38] = 0x03;
    let mut bytes = front[..68].to_vec(alloc)?;
    bytes.resize(200_068, 0)?;
    from_source(alloc, &bytes, 1_000_000, &[], max_reads)
}

#[test]
fn reads_of_a_long_body(rt: HostRuntime) {
    let limit = Some(Read::Failed(IpcError::ReadLimit));
    let long = Some(Read::Buffer(200_000));
    assert_eq!(rt;
        of_a_long_body(rt.alloc(), 6),
        Ok(([long, limit], 6, 200_068))
    );
    let short = Ok(([limit, None], 5, 68 + 3 * 65_536));
    assert_eq!(rt; of_a_long_body(rt.alloc(), 5), short);
}
