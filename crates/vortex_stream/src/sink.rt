//! Where bytes go.

ghost use Rattle.std.specs.Prelude.{◌≡◌, ℕ, ◌<◌, ◌≤◌, List, Option, length, take, IfOk, IfErr, OnOk, OnErr};
ghost use Rattle.std.specs.Io.KnownBytes.{WriteAppends, Appends, Keeps};
ghost use Rattle.vortex_stream.specs.Counts.{with_fault, with_flush};
ghost use Rattle.vortex_stream.specs.declared.counts.SinkCounts.{SinkCounts};

/// A write or a flush that failed. Why, the sink alone knows.
#[derive(Clone, Copy, Debug, PartialEq, Eq)]
pub struct SinkFailed;

/// A write of many bytes that failed after some of them.
#[derive(Clone, Copy, Debug, PartialEq, Eq)]
pub struct ShortWrite {
    /// How many bytes were written.
    pub written: usize,
}

/// Where bytes go: a file, a pipe, memory.
pub trait Sink {
    /// The bytes that were written, where the sink tells them.
    ghost written: { Self → Option (List ℕ) };

    /// How often a call failed, and a flush succeeded.
    ghost counts: { Self → SinkCounts };

    /// Takes a prefix of `piece`, at least one byte where there is one, and tells its length.
    fn write(&mut self, piece: &[u8]) -> Result<usize, SinkFailed>
        ensures bound { IfOk result (λ count. count ≤ length piece.now) }
        ensures progress { IfOk result (λ count. 0 < length piece.now → 0 < count) }
        ensures bytes { WriteAppends (written self.old) (written self.new) result piece.now }
        ensures fault { OnErr result (counts self.new ≡ with_fault (counts self.old)) }
        ensures no_fault { OnOk result (counts self.new ≡ counts self.old) };

    /// Hands on what was written so far.
    fn flush(&mut self) -> Result<(), SinkFailed>
        ensures kept { Keeps (written self.old) (written self.new) }
        ensures fault { OnErr result (counts self.new ≡ with_fault (counts self.old)) }
        ensures flushed { OnOk result (counts self.new ≡ with_flush (counts self.old)) };
}

/// Writes all of `bytes`. Each write is handed all that is left, and none is made for nothing.
pub fn write_all<K: Sink>(sink: &mut K, bytes: &[u8]) -> Result<(), ShortWrite>
    ensures all { OnOk result (Appends (K.written sink.old) (K.written sink.new) bytes.now) }
    ensures short { IfErr result (λ e. (e.written < length bytes.now)
        × Appends (K.written sink.old) (K.written sink.new) (take e.written bytes.now)) }
    ensures fault { OnErr result (K.counts sink.new ≡ with_fault (K.counts sink.old)) }
    ensures no_fault { OnOk result (K.counts sink.new ≡ K.counts sink.old) }
{
    let mut rest = bytes;
    while !rest.is_empty() {
        match sink.write(rest) {
            Ok(count) => rest = rest.split_at(count).1,
            Err(SinkFailed) => {
                return Err(ShortWrite {
                    written: bytes.len() - rest.len(),
                });
            }
        }
    }
    Ok(())
}
