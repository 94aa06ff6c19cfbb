use crate::{
    EncoderMessage, IpcError, MessageEncoder, SyncMessageWriter, VecSink, write_message_to,
};
use std::alloc::Global;
use std::test::Fail;
use vortex_buffer::{Alignment, ByteBuffer};
use vortex_dtype::{DType, DTypeError, Nullability, PType};

/// The buffer 1, 2, 3 under alignment 0: the length of the header, the header, the body.
const BUFFER: [u8; 71] = [
    64, 0, 0, 0, // length of the header
    24, 0, 0, 0, 0, 0, 0, 0, // place of the root; padding
    12, 0, 22, 0, // vtable of 12 bytes, inline part of 22
    20, 0, 21, 0, 16, 0, 8, 0, // version at 20, kind at 21, table at 16, body size at 8
    0, 0, 0, 0, // padding
    16, 0, 0, 0, 0, 0, 0, 0, // Message: its vtable is 16 before it; padding
    3, 0, 0, 0, 0, 0, 0, 0, // size of the body
    16, 0, 0, 0, // table of the kind, 16 further on
    0, 2, 0, 0, // version 0; kind 2; padding
    6, 0, 5, 0, 4, 0, 0, 0, // vtable of 6 bytes, inline part of 5; exponent at 4; padding
    8, 0, 0, 0, // table of a buffer: its vtable is 8 before it
    0, 0, 0, 0, // exponent 0; padding
    1, 2, 3, // the body
];

/// Whole numbers of 64 signed bits, never null.
const I64: [u8; 116] = [
    64, 0, 0, 0, // length of the header
    24, 0, 0, 0, 0, 0, 0, 0, // place of the root; padding
    12, 0, 22, 0, // vtable of 12 bytes, inline part of 22
    20, 0, 21, 0, 16, 0, 8, 0, // version at 20, kind at 21, table at 16, body size at 8
    0, 0, 0, 0, // padding
    16, 0, 0, 0, 0, 0, 0, 0, // Message: its vtable is 16 before it; padding
    48, 0, 0, 0, 0, 0, 0, 0, // size of the body
    16, 0, 0, 0, // table of the kind, 16 further on
    0, 3, 0, 0, // version 0; kind 3; padding
    4, 0, 4, 0, 0, 0, 0, 0, // vtable of 4 bytes, inline part of 4; padding
    8, 0, 0, 0, 0, 0, 0, 0, // table of a type, without fields; padding
    16, 0, 0, 0, 0, 0, 0, 0, // the body: place of the root; padding
    8, 0, 9, 0, 8, 0, 4, 0, // vtable of 8 bytes, inline part of 9; kind at 8, table at 4
    8, 0, 0, 0, // DType: its vtable is 8 before it
    20, 0, 0, 0, // table of the kind, 20 further on
    3, 0, 0, 0, 0, 0, 0, 0, // kind 3; padding
    8, 0, 6, 0, 4, 0, 5, 0, // vtable of 8 bytes, inline part of 6; ptype at 4, nullable at 5
    8, 0, 0, 0, // primitive: its vtable is 8 before it
    7, 0, 0, 0, // ptype 7; nullable 0; padding
];

/// Whether a sink whose calls of these numbers fail, and which takes so many bytes a call, is left
/// with `want`, and `answer` comes.
fn leaves(
    alloc: Global,
    message: EncoderMessage<'_>,
    sizes: &[usize],
    failing: &[u64],
    answer: Result<(), IpcError>,
    want: &[u8],
) -> Result<bool, Fail> {
    let mut sink = VecSink::new(alloc, sizes.to_vec(alloc)?, failing.to_vec(alloc)?);
    let got = write_message_to(alloc, &mut sink, message);
    Ok(got == answer && sink.written() == want)
}

#[test]
fn a_buffer_is_written(rt: HostRuntime) -> Result<(), Fail> {
    let alloc = rt.alloc();
    let buffer = ByteBuffer::from_slice(alloc, &[1, 2, 3])?;
    let message = EncoderMessage::Buffer(&buffer);
    let fault = Err(IpcError::WriteFault);
    assert!(rt; leaves(alloc, message, &[], &[], Ok(()), &BUFFER)?);
    assert!(rt;
        leaves(alloc, message, &[], &[2], Ok(()), &BUFFER)?,
        "two writes"
    );
    assert!(rt; leaves(alloc, message, &[], &[0], fault, &[])?);
    assert!(rt; leaves(alloc, message, &[], &[1], fault, &BUFFER[..68])?);
    assert!(rt; leaves(alloc, message, &[1], &[70], fault, &BUFFER[..70])?);
    assert!(rt; leaves(alloc, message, &[1], &[71], Ok(()), &BUFFER)?);
    Ok(())
}

#[test]
fn a_type_is_written(rt: HostRuntime) -> Result<(), Fail> {
    let dtype = DType::from_ptype(PType::I64);
    let message = EncoderMessage::DType(&dtype);
    assert!(rt; leaves(rt.alloc(), message, &[], &[], Ok(()), &I64)?);
    assert!(rt;
        leaves(
            rt.alloc(),
            message,
            &[7],
            &[16],
            Err(IpcError::WriteFault),
            &I64[..110]
        )?
    );
    Ok(())
}

#[test]
fn an_empty_buffer_is_one_piece(rt: HostRuntime) -> Result<(), Fail> {
    let alloc = rt.alloc();
    let empty = ByteBuffer::empty().with_alignment(Alignment::from_exponent(5));
    let mut want = BUFFER;
    want[36] = 0;
    want[64] = 5;
    let message = EncoderMessage::Buffer(&empty);
    assert!(rt;
        leaves(alloc, message, &[], &[1], Ok(()), &want[..68])?,
        "one write"
    );
    Ok(())
}

#[test]
fn pieces_are_not_empty(rt: HostRuntime) -> Result<(), Fail> {
    let alloc = rt.alloc();
    let empty = ByteBuffer::empty();
    let pieces = MessageEncoder::default().encode(alloc, EncoderMessage::Buffer(&empty))?;
    assert_eq!(rt; pieces.len(), 1);
    let dtype = DType::from_ptype(PType::I64);
    let pieces = MessageEncoder::default().encode(alloc, EncoderMessage::DType(&dtype))?;
    assert_eq!(rt; pieces.len(), 2);
    Ok(())
}

#[test]
fn messages_follow_one_another(rt: HostRuntime) -> Result<(), Fail> {
    let alloc = rt.alloc();
    let dtype = DType::from_ptype(PType::I64);
    let buffer = ByteBuffer::from_slice(alloc, &[1, 2, 3])?;
    let mut writer = SyncMessageWriter::new(VecSink::new(alloc, Vec::new(alloc), Vec::new(alloc)));
    writer.write_message(alloc, EncoderMessage::Buffer(&buffer))?;
    writer.write_message(alloc, EncoderMessage::DType(&dtype))?;
    let written = writer.sink.written();
    assert!(rt; written.starts_with(&BUFFER));
    assert!(rt; written.ends_with(&I64));
    assert_eq!(rt; written.len(), 187);
    Ok(())
}

/// A list of lists, of so many levels in all.
fn lists(alloc: Global, levels: usize) -> Result<DType, DTypeError> {
    let mut dtype = DType::Null;
    for _ in 1..levels {
        dtype = DType::list(alloc, dtype, Nullability::NonNullable)?;
    }
    Ok(dtype)
}

#[test]
fn a_type_outside_the_limits_is_too_large(rt: HostRuntime) -> Result<(), Fail> {
    let deep = lists(rt.alloc(), 65)?;
    let too_large = Err(IpcError::TooLarge);
    assert!(rt;
        leaves(
            rt.alloc(),
            EncoderMessage::DType(&deep),
            &[],
            &[],
            too_large,
            &[]
        )?
    );
    let within = lists(rt.alloc(), 64)?;
    let message = EncoderMessage::DType(&within);
    assert!(rt;
        MessageEncoder::default()
            .encode(rt.alloc(), message)
            .is_ok()
    );
    Ok(())
}
