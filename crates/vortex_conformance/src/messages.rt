//! Questions on messages.

ghost use Rattle.std.specs.Prelude.{◌<◌, length};

use crate::answers::Refusal;
use crate::words::{buffer_of, word_of};
use std::alloc::{AllocError, Global};
use vortex_encodings::ArrayRegistry;
use vortex_ipc::{BytesQueue, DecoderMessage, IpcError, MessageDecoder, PollRead};

/// A decoder, the bytes that it is still to be given, and what it answered so far.
#[derive(Drop)]
struct Decoding {
    decoder: MessageDecoder,
    queue: BytesQueue,
    answer: String,
}

/// What a decoder answers to bytes that come in pieces of these sizes.
pub(crate) fn messages_answer(alloc: Global, sizes: &str, bytes: &str) -> Result<String, Refusal> {
    let bytes = buffer_of(alloc, bytes)?;
    let sizes = sizes_of(alloc, sizes)?;
    let queue = BytesQueue::new(alloc)?;
    decoder_answer(alloc, queue, &sizes, bytes.as_slice())
}

fn decoder_answer(
    alloc: Global,
    queue: BytesQueue,
    sizes: &[usize],
    bytes: &[u8],
) -> Result<String, Refusal> {
    let mut decoding = Decoding {
        decoder: MessageDecoder::new(ArrayRegistry::canonical_only()),
        queue,
        answer: String::new(alloc),
    };
    let ended = decode_pieces(alloc, &mut decoding, sizes, bytes);
    let last = last_answer(alloc, ended)?;
    decoding.answer.push_str(last.as_str())?;
    Ok(decoding.answer)
}

/// The number of bytes that are needed, or the refusal.
fn last_answer(alloc: Global, ended: Result<usize, IpcError>) -> Result<String, Refusal> {
    match ended {
        Ok(need) => Ok(format!(in alloc; "need:{need}")?),
        Err(IpcError::OutOfMemory) => Err(Refusal::OutOfMemory),
        Err(IpcError::WrongKind { found: _ }) => Ok(String::from_str(alloc, "WrongKind")?),
        Err(error) => Ok(format!(in alloc; "{error:?}")?),
    }
}

/// Numbers with commas between them.
fn sizes_of(alloc: Global, word: &str) -> Result<Vec<usize>, Refusal> {
    let mut sizes = Vec::new(alloc);
    for number in word.split(',') {
        match number.parse::<usize>() {
            Ok(size) => sizes.push(size)?,
            Err(_) => return Err(Refusal::Unknown),
        }
    }
    Ok(sizes)
}

/// Gives the pieces, and asks after each. The answer is what is needed at the end.
fn decode_pieces(
    alloc: Global,
    decoding: &mut Decoding,
    sizes: &[usize],
    bytes: &[u8],
) -> Result<usize, IpcError> {
    let mut need = decode_queue(alloc, decoding)?;
    let mut rest = bytes;
    let mut sizes = sizes.iter();
    let mut size = 1;
    while !rest.is_empty() {
        if let Some(next) = sizes.next() {
            size = *next;
        }
        let (piece, behind) = cut(rest, size);
        decoding.queue.push(alloc, piece)?;
        need = decode_queue(alloc, decoding)?;
        rest = behind;
    }
    Ok(need)
}

/// A piece of that size, but of a byte at least and of all bytes at most, and those behind it.
fn cut(bytes: &[u8], size: usize) -> (&[u8], &[u8])
    requires { 0 < length bytes.now }
    ensures { length result.1.now < length bytes.now }
{
    bytes.split_at(size.max(1).min(bytes.len()))
}

/// Asks until more is needed. A message takes a byte at least, so that there are no more of them
/// than bytes.
fn decode_queue(alloc: Global, decoding: &mut Decoding) -> Result<usize, IpcError> {
    for _ in 0..=decoding.queue.len() {
        match decoding.decoder.read_next(alloc, &mut decoding.queue)? {
            PollRead::Some(message) => tell(alloc, &mut decoding.answer, &message)?,
            PollRead::NeedMore(need) => return Ok(need),
        }
    }
    Err(IpcError::Failed)
}

/// Puts a message and a blank behind the answer.
fn tell(alloc: Global, answer: &mut String, message: &DecoderMessage) -> Result<(), AllocError> {
    let text = message_text(alloc, message)?;
    answer.push_str(text.as_str())?;
    answer.push_str(" ")
}

fn message_text(alloc: Global, message: &DecoderMessage) -> Result<String, AllocError> {
    match message {
        DecoderMessage::Array(array) => format!(in alloc; "array:{}", array.2),
        DecoderMessage::Buffer(buffer) => {
            let bytes = word_of(alloc, buffer.as_slice())?;
            format!(in alloc; "buffer:{}:{bytes}", buffer.alignment().exponent())
        }
        DecoderMessage::DType(dtype) => {
            let text = word_of(alloc, format!(in alloc; "{dtype}")?.as_bytes())?;
            format!(in alloc; "dtype:{text}")
        }
    }
}
