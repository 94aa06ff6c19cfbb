//! Messages as bytes.

ghost use Rattle.std.specs.Prelude.{◌≡◌, ◌++◌, ◌<◌, ◌^◌, ℕ, List, Some, length, IfOk, IsOkUnless, IsSome};
ghost use Rattle.std.specs.List.{concat};
ghost use Rattle.std.specs.Option.{option_map};
ghost use Rattle.vortex_flat.specs.Finish.{IsTable};
ghost use Rattle.vortex_flat.specs.Item.{tree_of};
ghost use Rattle.vortex_flat.specs.Layout.{layout_of};
ghost use Rattle.vortex_stream.specs.Header.{kind_of};
ghost use Rattle.vortex_ipc.specs.Encoding.{Encodes, FitsHeader, IsReadAs, body_of, content_of};
ghost use Rattle.vortex_ipc.specs.Encoding.{content_slots, encoded, encoded_pieces, head_of};
ghost use Rattle.vortex_ipc.specs.Encoding.{header_tree, in_pieces, with_length};
ghost use Rattle.vortex_ipc.specs.declared.encoder.EncoderMessage.{EncoderMessage};

use bytes::Bytes;
use std::alloc::{AllocError, Global};
use vortex_buffer::ByteBuffer;
use vortex_dtype::{DType, DTypeError};
use vortex_flat::{FlatError, Item, Items, Slot, Slots};
use vortex_stream::schema::VERSION;
use vortex_stream::{IpcError, MessageKind};

/// What is to be written as a message.
#[derive(Clone, Copy)]
pub enum EncoderMessage<'a> {
    /// The bytes of a buffer, under its alignment.
    Buffer(&'a ByteBuffer),
    /// A type.
    DType(&'a DType),
}

/// Makes the bytes of messages.
#[derive(Clone, Copy, Debug, Default)]
pub struct MessageEncoder;

/// What is written is a message, whatever follows it, and it holds what was given.
///
/// This does nothing when the program runs.
pub fn written_messages_are_read()
    ensures { (m : EncoderMessage) (bytes rest : List ℕ) → FitsHeader m
        → encoded m ≡ Some bytes → IsReadAs m (bytes ++ rest) rest }
{}

impl MessageEncoder {
    /// The bytes of a message in pieces, none of which is empty: the length of the header and the
    /// header together, and then the body. A type outside the limits is `TooLarge`.
    pub fn encode(
        &mut self,
        alloc: Global,
        message: EncoderMessage<'_>,
    ) -> Result<Vec<Bytes>, IpcError>
        ensures pieces { Encodes (λ v. v.items) result message.entry
            (encoded_pieces message.entry) }
        ensures joined { IfOk result (λ v. encoded message.entry ≡ Some (concat v.items)) }
    {
        let body = body(alloc, message)?;
        let head = head(alloc, message, body.len() as u64)?;
        pieces(alloc, head, body)
    }
}

/// The body of a message.
fn body(alloc: Global, message: EncoderMessage<'_>) -> Result<Bytes, IpcError>
    ensures { Encodes (λ b. b) result message.entry (body_of message.entry) }
{
    match message {
        EncoderMessage::Buffer(buffer) => Ok(bytes_of(buffer)?),
        EncoderMessage::DType(dtype) => match dtype.write_flatbuffer_bytes(alloc) {
            Ok(buffer) => Ok(bytes_of(&buffer)?),
            Err(DTypeError::TooLarge) => Err(IpcError::TooLarge),
            Err(_) => Err(IpcError::OutOfMemory),
        },
    }
}

/// The bytes of a buffer, which stay shared with it.
fn bytes_of(buffer: &ByteBuffer) -> Result<Bytes, AllocError>
    ensures { IfOk result (λ b. b ≡ buffer.now.bytes) }
{
    buffer.inner().clone()
}

/// What stands before a body, and the body where it is not empty.
fn pieces(alloc: Global, head: Vec<u8>, body: Bytes) -> Result<Vec<Bytes>, IpcError>
    ensures pieces { IfOk result (λ v. v.items ≡ in_pieces body head.items) }
    ensures memory { IsOkUnless result IpcError.OutOfMemory }
{
    let head = Bytes::from_vec(head)?;
    if body.is_empty() {
        Ok(vec![in alloc; head]?)
    } else {
        Ok(vec![in alloc; head, body]?)
    }
}

/// What stands before a body of that size: the header, behind its length.
fn head(alloc: Global, message: EncoderMessage<'_>, size: u64) -> Result<Vec<u8>, IpcError>
    ensures head { IfOk result (λ v. head_of message.entry size ≡ Some v.items) }
    ensures memory { IsOkUnless result IpcError.OutOfMemory }
{
    let item = header_item(alloc, message, size)?;
    behind_length(alloc, &item)
}

/// The header of a message: its version, its kind with what is told of it, and the size of the
/// body.
fn header_item(alloc: Global, message: EncoderMessage<'_>, size: u64) -> Result<Item, AllocError>
    ensures { IfOk result (λ item. tree_of item ≡ header_tree message.entry size) }
{
    let content = Some(Slot::Item(Item::Table(content(alloc, message)?)));
    let slots = vec![in alloc;
        Some(Slot::U8(VERSION)),
        Some(Slot::U8(kind(message).number())),
        content,
        Some(Slot::U64(size)),
    ]?;
    Ok(Item::Table(Slots::new(slots)))
}

/// The kind of a message.
fn kind(message: EncoderMessage<'_>) -> MessageKind
    ensures { result ≡ kind_of (content_of message.entry) }
{
    match message {
        EncoderMessage::Buffer(_) => MessageKind::Buffer,
        EncoderMessage::DType(_) => MessageKind::DType,
    }
}

/// What the header tells of what the message holds.
fn content(alloc: Global, message: EncoderMessage<'_>) -> Result<Slots, AllocError>
    ensures { IfOk result (λ slots. slots ≡ content_slots message.entry) }
{
    let slots = match message {
        EncoderMessage::Buffer(buffer) => {
            let exponent = buffer.alignment().exponent();
            vec![in alloc; Some(Slot::U8(exponent))]?
        }
        EncoderMessage::DType(_) => Vec::new(alloc),
    };
    Ok(Slots::new(slots))
}

/// The layout of a header that has one, behind its length.
fn behind_length(alloc: Global, header: &Item) -> Result<Vec<u8>, IpcError>
    requires table { IsTable (tree_of header.now) }
    requires fits { IsSome (layout_of (tree_of header.now)) }
    ensures head { IfOk result (λ v.
        option_map with_length (layout_of (tree_of header.now)) ≡ Some v.items) }
    ensures memory { IsOkUnless result IpcError.OutOfMemory }
{
    let header = laid_out(alloc, header)?;
    let mut out = Vec::with_capacity(alloc, 4 + header.len())?;
    out.extend_from_slice(&(header.len() as u32).to_le_bytes())?;
    out.extend_from_slice(&header)?;
    Ok(out)
}

/// The layout of a table that has one, so that nothing but lack of memory is in the way.
fn laid_out(alloc: Global, root: &Item) -> Result<Vec<u8>, AllocError>
    requires table { IsTable (tree_of root.now) }
    requires fits { IsSome (layout_of (tree_of root.now)) }
    ensures laid { IfOk result (λ v. layout_of (tree_of root.now) ≡ Some v.items) }
    ensures short { IfOk result (λ v. length v.items < 2 ^ 32) }
{
    match Items::finish(alloc, root) {
        Ok(bytes) => Ok(bytes),
        Err(FlatError::OutOfMemory) => Err(AllocError),
        Err(FlatError::Outside | FlatError::TooLong) => unreachable!(),
    }
}
