//! Readers and writers of the standard library as sources and sinks. They tell what the reader's
//! `remaining` and the writer's `contents` tell, which is nothing for the standard streams.

ghost use Rattle.std.specs.Prelude.{◌≡◌};
ghost use Rattle.vortex_stream.specs.Counts.{no_sink_counts, no_source_counts};

use crate::counts::{SinkCounts, SourceCounts};
use crate::sink::{Sink, SinkFailed};
use crate::source::{Source, SourceFailed};
use std::io::{Read, Write};

/// A reader of the standard library as a source, whose bytes still to come are those that the
/// reader tells.
#[derive(Drop)]
pub struct ReadSource<R> {
    inner: R,
    counts: SourceCounts,
}

impl<R: Read> ReadSource<R> {
    /// A source of what `inner` still has to give. What it gave before is not counted.
    pub fn new(inner: R) -> ReadSource<R>
        ensures { result ≡ record { inner = inner; counts = no_source_counts } }
    {
        ReadSource {
            inner,
            counts: SourceCounts::NONE,
        }
    }
}

impl<R: Read> Source for ReadSource<R> {
    ghost rest = { λ s. R.remaining s.inner };

    ghost counts = { λ s. s.counts };

    fn read(&mut self, piece: &mut [u8]) -> Result<usize, SourceFailed> {
        let answer = match self.inner.read(piece) {
            Ok(count) => Ok(count),
            Err(_) => Err(SourceFailed),
        };
        self.counts = self.counts.after_read(answer, piece.len());
        answer
    }
}

/// A writer of the standard library as a sink, whose written bytes are those that the writer tells.
/// A write that takes nothing has failed.
#[derive(Drop)]
pub struct WriteSink<W> {
    inner: W,
    counts: SinkCounts,
}

impl<W: Write> WriteSink<W> {
    /// A sink into `inner`. Where the writer tells its bytes, those that it took before are among
    /// the written ones.
    pub fn new(inner: W) -> WriteSink<W>
        ensures { result ≡ record { inner = inner; counts = no_sink_counts } }
    {
        WriteSink {
            inner,
            counts: SinkCounts::NONE,
        }
    }
}

impl<W: Write> Sink for WriteSink<W> {
    ghost written = { λ s. W.contents s.inner };

    ghost counts = { λ s. s.counts };

    fn write(&mut self, piece: &[u8]) -> Result<usize, SinkFailed> {
        match self.inner.write(piece) {
            Ok(count) if count > 0 || piece.is_empty() => Ok(count),
            _ => {
                self.counts = self.counts.with_fault();
                Err(SinkFailed)
            }
        }
    }

    fn flush(&mut self) -> Result<(), SinkFailed> {
        match self.inner.flush() {
            Ok(()) => {
                self.counts = self.counts.with_flush();
                Ok(())
            }
            Err(_) => {
                self.counts = self.counts.with_fault();
                Err(SinkFailed)
            }
        }
    }
}
