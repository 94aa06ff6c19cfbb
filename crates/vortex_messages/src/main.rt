//! Lists the messages of a stream on standard input, one a line: the text of a type, the size of a
//! buffer and the exponent of its alignment, or how many rows and names of encodings an array has.
//! The status is 0 where the input ends between two messages, and else the number of the error, which
//! stands on standard error.
#![tactic(auto)]

use std::alloc::Global;
use std::io;
use std::io::{BufWriter, Write};
use std::process::ExitCode;
use vortex_encodings::ArrayRegistry;
use vortex_ipc::{DecoderMessage, IpcError, ReadSource, Source, SyncMessageReader};

/// A list that cannot be written.
const NO_OUTPUT: u8 = 64;

/// One line for a message.
fn line<W: Write>(out: &mut W, message: &DecoderMessage) -> io::Result<()> {
    match message {
        DecoderMessage::Array(array) => {
            let names = array.1.ids().len();
            writeln!(out, "array of {} rows, {names} encodings", array.2)
        }
        DecoderMessage::DType(dtype) => writeln!(out, "type {dtype}"),
        DecoderMessage::Buffer(buffer) => {
            let exponent = buffer.alignment().exponent();
            writeln!(
                out,
                "buffer of {} bytes, alignment 2^{exponent}",
                buffer.len()
            )
        }
    }
}

/// Lists the messages up to the end or an error, which it gives.
fn list<S: Source + Drop, W: Write>(
    alloc: Global,
    source: S,
    out: &mut W,
) -> io::Result<Option<IpcError>> {
    let mut reader = match SyncMessageReader::new(alloc, source, ArrayRegistry::canonical_only()) {
        Ok(reader) => reader,
        Err(error) => return Ok(Some(error)),
    };
    // Each message takes a read, and there are no more of these.
    for _ in 0..u64::MAX {
        match reader.next(alloc) {
            None => return Ok(None),
            Some(Ok(message)) => line(out, &message)?,
            Some(Err(error)) => return Ok(Some(error)),
        }
    }
    Ok(Some(IpcError::ReadLimit))
}

fn main(rt: HostRuntime) -> ExitCode {
    let alloc = rt.alloc();
    let Ok(mut out) = BufWriter::new(alloc, io::writer(&rt)) else {
        return ExitCode::from(IpcError::OutOfMemory.number());
    };
    let listed = list(alloc, ReadSource::new(rt.stdin()), &mut out);
    match (listed, out.flush()) {
        (Ok(None), Ok(())) => ExitCode::from(0),
        (Ok(Some(error)), Ok(())) => {
            let _ = writeln!(rt.stderr(), "{error}");
            ExitCode::from(error.number())
        }
        _ => ExitCode::from(NO_OUTPUT),
    }
}
