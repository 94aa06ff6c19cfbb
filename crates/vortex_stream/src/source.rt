//! Where bytes come from.

ghost use Rattle.std.specs.Prelude.{◌≡◌, ℕ, ◌≤◌, List, Option, length, IfOk};
ghost use Rattle.std.specs.Io.KnownBytes.{ReadConsumes};
ghost use Rattle.vortex_stream.specs.Counts.{counts_of_read, raised_by};
ghost use Rattle.vortex_stream.specs.declared.counts.SourceCounts.{SourceCounts};

/// A read that failed. Why, the source alone knows.
#[derive(Clone, Copy, Debug, PartialEq, Eq)]
pub struct SourceFailed;

/// Where bytes come from: a file, a pipe, memory.
pub trait Source {
    /// The bytes still to come, where the source tells them.
    ghost rest: { Self → Option (List ℕ) };

    /// How often a read failed and the end was told, how many bytes were given and how many reads
    /// made.
    ghost counts: { Self → SourceCounts };

    /// Reads the next bytes into a prefix of `piece`, and tells how many. No byte, on a piece that
    /// has room, tells the end.
    fn read(&mut self, piece: &mut [u8]) -> Result<usize, SourceFailed>
        ensures bound { IfOk result (λ count. count ≤ length piece.new) }
        ensures bytes { ReadConsumes (rest self.old) (rest self.new) result piece.new }
        ensures counted { counts self.new
            ≡ raised_by (counts self.old) (counts_of_read result (length piece.new)) };
}
