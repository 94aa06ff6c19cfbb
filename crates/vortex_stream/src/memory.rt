//! A source and a sink in memory, with short and failing calls at will.

ghost use Rattle.std.specs.Prelude.{◌≡◌, ◌+◌, ◌<◌, ◌≤◌, min, Some, length, take, drop, IfOk, IfErr, OnOk, OnErr, IsErr, is_err, true};
ghost use Rattle.std.specs.Io.KnownBytes.{ReadConsumes, WriteAppends, Keeps};
ghost use Rattle.vortex_stream.specs.Counts.{counts_of_read, raised_by, with_fault, with_flush};
ghost use Rattle.vortex_stream.specs.InMemory.{allowed, contains, new_source, new_sink, after_read, after_write, after_flush};

use crate::counts::{SinkCounts, SourceCounts};
use crate::error::IpcError;
use crate::sink::{Sink, SinkFailed};
use crate::source::{Source, SourceFailed};
use std::alloc::Global;
use std::marker::Model;

/// How many of `wanted` bytes the call of that number may take.
fn allowed(sizes: &[usize], call: u128, wanted: usize) -> usize
    ensures { result ≡ allowed sizes.now call wanted }
{
    let Some(last) = sizes.last() else {
        return wanted;
    };
    let size = match usize::try_from(call) {
        Ok(k) if k < sizes.len() => sizes[k],
        _ => *last,
    };
    wanted.min(size.max(1))
}

fn fails(failing: &[u64], call: u128) -> bool
    ensures { result ≡ contains failing.now call }
{
    failing.iter().any(|number| u128::from(*number) == call)
}

/// Bytes in memory, read in pieces of chosen sizes, with reads that fail.
#[derive(Drop)]
pub struct VecSource {
    bytes: Vec<u8>,
    place: usize,
    sizes: Vec<usize>,
    failing: Vec<u64>,
    counts: SourceCounts,
}

impl Model for VecSource {
    ghost use Rattle.std.specs.Prelude.{drop, vec_len, ◌≤◌};
    ghost use Rattle.vortex_stream.specs.InMemory.{SourceState};

    ghost Value = { SourceState };

    ghost view = { λ s. record {
      rest = drop s.place s.bytes.items;
      sizes = s.sizes.items;
      failing = s.failing.items;
      counts = s.counts;
    } };

    ghost invariant = { λ s. s.place ≤ vec_len s.bytes };
}

impl VecSource {
    /// A source of `bytes`. Its k-th read, counted from 0, gives at most `sizes[k]` bytes, and
    /// fails where `failing` has k. Past the list the last size holds, an empty list sets no limit,
    /// and a size of 0 counts as 1.
    pub fn new(bytes: Vec<u8>, sizes: Vec<usize>, failing: Vec<u64>) -> VecSource
        ensures { result ≡ new_source bytes.items sizes.items failing.items }
    {
        VecSource {
            bytes,
            place: 0,
            sizes,
            failing,
            counts: SourceCounts::NONE,
        }
    }

    /// What was counted so far.
    pub fn counts(&self) -> SourceCounts
        ensures { result ≡ self.now.counts }
    {
        self.counts
    }

    /// How many reads were made.
    pub fn read_count(&self) -> u128
        ensures { result ≡ self.now.counts.reads }
    {
        self.counts.reads
    }

    /// How many bytes were given.
    pub fn given_count(&self) -> u128
        ensures { result ≡ self.now.counts.given }
    {
        self.counts.given
    }

    // Gives the next bytes.
    fn give(&mut self, piece: &mut [u8]) -> usize
        ensures count { result
            ≡ min (allowed self.old.sizes self.old.counts.reads (length piece.old))
            (length self.old.rest) }
        ensures bytes { take result piece.new ≡ take result self.old.rest }
        ensures state { self.new ≡ record self.old { rest = drop result self.old.rest } }
    {
        let left = self.bytes.len() - self.place;
        let count = allowed(&self.sizes, self.counts.reads, piece.len()).min(left);
        let end = self.place + count;
        piece[..count].copy_from_slice(&self.bytes[self.place..end]);
        self.place = end;
        count
    }
}

impl Source for VecSource {
    ghost use Rattle.std.specs.Prelude.{Some};

    ghost rest = { λ s. Some s.rest };

    ghost counts = { λ s. s.counts };

    fn read(&mut self, piece: &mut [u8]) -> Result<usize, SourceFailed>
        ensures failing { is_err result ≡ contains self.old.failing self.old.counts.reads }
        ensures count { IfOk result (λ count. count
            ≡ min (allowed self.old.sizes self.old.counts.reads (length piece.new))
            (length self.old.rest)) }
        ensures prefix { IfOk result (λ count. take count piece.new ≡ take count self.old.rest) }
        ensures state { self.new ≡ after_read self.old result (length piece.new) }

        // What every source promises.
        ensures bound { IfOk result (λ count. count ≤ length piece.new) }
        ensures bytes { ReadConsumes (Some self.old.rest) (Some self.new.rest) result piece.new }
        ensures counted { self.new.counts
            ≡ raised_by self.old.counts (counts_of_read result (length piece.new)) }
    {
        let answer = if fails(&self.failing, self.counts.reads) {
            Err(SourceFailed)
        } else {
            Ok(self.give(piece))
        };
        self.counts = self.counts.after_read(answer, piece.len());
        answer
    }
}

/// A vector that is written in pieces of chosen sizes, with calls that fail.
#[derive(Drop)]
pub struct VecSink {
    bytes: Vec<u8>,
    room: usize,
    sizes: Vec<usize>,
    failing: Vec<u64>,
    calls: u128,
    refused: u64,
    counts: SinkCounts,
}

impl Model for VecSink {
    ghost use Rattle.std.specs.Prelude.{vec_capacity, ◌≤◌};
    ghost use Rattle.vortex_stream.specs.InMemory.{SinkState};

    ghost Value = { SinkState };

    ghost view = { λ s. record {
      written = s.bytes.items;
      room = s.room;
      sizes = s.sizes.items;
      failing = s.failing.items;
      calls = s.calls;
      refused = s.refused;
      counts = s.counts;
    } };

    ghost invariant = { λ s. s.room ≤ vec_capacity s.bytes };
}

impl VecSink {
    /// An empty sink. Its k-th call, writes and flushes numbered together from 0, takes at most
    /// `sizes[k]` bytes, and fails where `failing` has k. Past the list the last size holds, an
    /// empty list sets no limit, and a size of 0 counts as 1.
    pub fn new(alloc: Global, sizes: Vec<usize>, failing: Vec<u64>) -> VecSink
        ensures { result ≡ new_sink 0 sizes.items failing.items }
    {
        VecSink {
            bytes: Vec::new(alloc),
            room: 0,
            sizes,
            failing,
            calls: 0,
            refused: 0,
            counts: SinkCounts::NONE,
        }
    }

    /// The same with room for so many bytes: while no more are written, no write is refused memory.
    pub fn with_room(
        alloc: Global,
        room: usize,
        sizes: Vec<usize>,
        failing: Vec<u64>,
    ) -> Result<VecSink, IpcError>
        ensures made { IfOk result (λ sink. sink ≡ new_sink room sizes.items failing.items) }
        ensures memory { IfErr result (λ e. e ≡ IpcError.OutOfMemory) }
    {
        Ok(VecSink {
            bytes: Vec::with_capacity(alloc, room)?,
            room,
            sizes,
            failing,
            calls: 0,
            refused: 0,
            counts: SinkCounts::NONE,
        })
    }

    /// What was written so far.
    pub fn written(&self) -> &[u8]
        ensures { result.now ≡ self.now.written }
    {
        &self.bytes
    }

    /// How many writes were refused memory.
    pub fn refused(&self) -> u64
        ensures { result ≡ self.now.refused }
    {
        self.refused
    }

    /// What was counted so far.
    pub fn counts(&self) -> SinkCounts
        ensures { result ≡ self.now.counts }
    {
        self.counts
    }
}

impl Sink for VecSink {
    ghost use Rattle.std.specs.Prelude.{Some};

    ghost written = { λ s. Some s.written };

    ghost counts = { λ s. s.counts };

    fn write(&mut self, piece: &[u8]) -> Result<usize, SinkFailed>
        ensures failing { contains self.old.failing self.old.calls ≡ true → IsErr result }
        ensures count { IfOk result (λ count. count
            ≡ allowed self.old.sizes self.old.calls (length piece.now)) }
        ensures state { self.new ≡ after_write self.old result piece.now }
        ensures room { length self.old.written
            + allowed self.old.sizes self.old.calls (length piece.now)
            ≤ self.old.room → is_err result ≡ contains self.old.failing self.old.calls }

        // What every sink promises.
        ensures bound { IfOk result (λ count. count ≤ length piece.now) }
        ensures progress { IfOk result (λ count. 0 < length piece.now → 0 < count) }
        ensures bytes { WriteAppends (Some self.old.written) (Some self.new.written)
            result piece.now }
        ensures fault { OnErr result (self.new.counts ≡ with_fault self.old.counts) }
        ensures no_fault { OnOk result (self.new.counts ≡ self.old.counts) }
    {
        let call = self.calls;
        self.calls = self.calls.saturating_add(1);
        if fails(&self.failing, call) {
            self.counts = self.counts.with_fault();
            return Err(SinkFailed);
        }
        let count = allowed(&self.sizes, call, piece.len());
        if self.bytes.extend_from_slice(&piece[..count]).is_err() {
            self.refused = self.refused.saturating_add(1);
            self.counts = self.counts.with_fault();
            return Err(SinkFailed);
        }
        Ok(count)
    }

    fn flush(&mut self) -> Result<(), SinkFailed>
        ensures failing { is_err result ≡ contains self.old.failing self.old.calls }
        ensures state { self.new ≡ after_flush self.old result }

        // What every sink promises.
        ensures kept { Keeps (Some self.old.written) (Some self.new.written) }
        ensures fault { OnErr result (self.new.counts ≡ with_fault self.old.counts) }
        ensures flushed { OnOk result (self.new.counts ≡ with_flush self.old.counts) }
    {
        let call = self.calls;
        self.calls = self.calls.saturating_add(1);
        if fails(&self.failing, call) {
            self.counts = self.counts.with_fault();
            return Err(SinkFailed);
        }
        self.counts = self.counts.with_flush();
        Ok(())
    }
}
