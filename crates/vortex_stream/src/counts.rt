//! Counts of what the outside did.

ghost use Rattle.std.specs.Prelude.{◌≡◌};
ghost use Rattle.vortex_stream.specs.Counts.{counts_of_read, raised_by, with_fault, with_flush};

use crate::source::SourceFailed;

/// What a source counts. Each count stands still at the last value of its type.
#[derive(Clone, Copy, Debug, PartialEq, Eq)]
pub struct SourceCounts {
    /// How often a read has failed.
    pub faults: u64,
    /// How often the end was told.
    pub ends: u64,
    /// How many bytes were given.
    pub given: u128,
    /// How many reads were made.
    pub reads: u128,
}

impl SourceCounts {
    /// Before the first read.
    pub const NONE: SourceCounts = SourceCounts {
        faults: 0,
        ends: 0,
        given: 0,
        reads: 0,
    };

    /// The counts after a read that answered so, on a piece of `room` bytes.
    pub(crate) fn after_read(self, answer: Result<usize, SourceFailed>, room: usize) -> SourceCounts
        ensures { result ≡ raised_by self (counts_of_read answer room) }
    {
        let reads = self.reads.saturating_add(1);
        match answer {
            Ok(count) => SourceCounts {
                faults: self.faults,
                ends: self.ends.saturating_add(u64::from(count == 0 && room > 0)),
                given: self.given.saturating_add(count as u128),
                reads,
            },
            Err(SourceFailed) => SourceCounts {
                faults: self.faults.saturating_add(1),
                ends: self.ends,
                given: self.given,
                reads,
            },
        }
    }
}

/// What a sink counts. Each count stands still at its last value.
#[derive(Clone, Copy, Debug, PartialEq, Eq)]
pub struct SinkCounts {
    /// How often a call has failed.
    pub faults: u64,
    /// How often a flush has succeeded.
    pub flushes: u64,
}

impl SinkCounts {
    /// Before the first call.
    pub const NONE: SinkCounts = SinkCounts {
        faults: 0,
        flushes: 0,
    };

    /// The counts after one more call that failed.
    pub(crate) fn with_fault(self) -> SinkCounts
        ensures { result ≡ with_fault self }
    {
        SinkCounts {
            faults: self.faults.saturating_add(1),
            flushes: self.flushes,
        }
    }

    /// The counts after one more flush that succeeded.
    pub(crate) fn with_flush(self) -> SinkCounts
        ensures { result ≡ with_flush self }
    {
        SinkCounts {
            faults: self.faults,
            flushes: self.flushes.saturating_add(1),
        }
    }
}
