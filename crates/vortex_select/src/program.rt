//! The top call.

ghost use Rattle.std.specs.Prelude.{◌≡◌, Some, None, IfSome, IfOk, OnOk, IfErr};
ghost use Rattle.vortex_stream.specs.Writing.{LeavesNote};
ghost use Rattle.vortex_select.specs.Answer.{HasCause, HasSelected, SinkStands, SourceWent};
ghost use Rattle.vortex_select.specs.Report.{status_of, note_of};
ghost use Rattle.vortex_select.specs.inner.Stops.{IsBeforeWriting, StopsWith};
ghost use Rattle.vortex_select.specs.Theorem.{IsSomeStream, WroteAll};
ghost use Rattle.vortex_select.specs.Words.{texts};

use crate::error::SelectError;
use crate::note::line;
use crate::reading::read_to_end;
use crate::report::{RowCounts, RunFault, RunReport, status_of};
use crate::whole_output::{counts_within, output_for};
use crate::words::{Query, query_of};
use std::alloc::Global;
use std::sync::ledger::Ledger;
use vortex_steps::Steps;
use vortex_stream::{Sink, SinkFailed, Source, write_all};

/// Does what the words ask for: reads a stream of `source` to its end, writes the stream of the
/// rows that are kept to `sink`, and leaves one line on `note`. Both are flushed.
///
/// The words are `select`, `.`, one of `eq ne lt le gt ge`, and `i64:` with a number. The status is
/// 0, 2 for other words, 6 after too many reads, 7 and 8 after a failed read or write, 9 for lack
/// of memory, or 10 where the input is no stream of one column of 64 signed bits, never null, in
/// primitive arrays.
pub fn run<S: Source, K: Sink, N: Sink, L: Ledger>(
    alloc: Global,
    words: &[String],
    source: &mut S,
    sink: &mut K,
    note: &mut N,
    steps: &mut Steps<L>,
) -> RunReport
    ensures selected { HasSelected (texts words.now) (S.rest source.old)
        (K.written sink.old) (K.written sink.new) result.counts result.fault }
    ensures cause { HasCause (texts words.now) (S.rest source.old) result.fault }
    ensures source { SourceWent S.counts S.rest source.old source.new result.fault }
    ensures sink { SinkStands K.counts sink.old sink.new result.fault }
    ensures note { LeavesNote (note_of result.counts result.fault)
        (N.counts note.old) (N.counts note.new) (N.written note.old) (N.written note.new) }
    ensures steps { steps.new ≡ steps.old }
    ensures status { result.status ≡ status_of result.fault }
{
    let report = report_of(alloc, words, source, sink);
    leave(note, &line(&report.counts, report.fault));
    report
}

/// What a run answers, before its note is left.
fn report_of<S: Source, K: Sink>(
    alloc: Global,
    words: &[String],
    source: &mut S,
    sink: &mut K,
) -> RunReport
    ensures selected { HasSelected (texts words.now) (S.rest source.old)
        (K.written sink.old) (K.written sink.new) result.counts result.fault }
    ensures cause { HasCause (texts words.now) (S.rest source.old) result.fault }
    ensures source { SourceWent S.counts S.rest source.old source.new result.fault }
    ensures sink { SinkStands K.counts sink.old sink.new result.fault }
    ensures status { result.status ≡ status_of result.fault }
{
    let Some(query) = query_of(words) else {
        return report(RowCounts::NONE, Some(RunFault::BadWords));
    };
    match select(alloc, &query, source, sink) {
        Ok(counts) => report(counts, None),
        Err(stopped) => report(stopped.counts, Some(RunFault::Select(stopped.error))),
    }
}

fn report(counts: RowCounts, fault: Option<RunFault>) -> RunReport
    ensures { result ≡ record { status = status_of fault; counts = counts; fault = fault } }
{
    RunReport {
        status: status_of(fault),
        counts,
        fault,
    }
}

/// Leaves a line on the note. What becomes of it changes nothing else.
fn leave<N: Sink>(note: &mut N, line: &str)
    ensures { LeavesNote line.now
        (N.counts note.old) (N.counts note.new) (N.written note.old) (N.written note.new) }
{
    if let Ok(()) = write_all(note, line.as_bytes()) {
        let _ = note.flush();
    }
}

/// An error, and the counts of what was wholly written before it.
#[derive(Drop)]
struct Stopped {
    error: SelectError,
    counts: RowCounts,
}

impl From<SelectError> for Stopped {
    ghost from_gives = { IsBeforeWriting };

    fn from(error: SelectError) -> Stopped {
        Stopped {
            error,
            counts: RowCounts::NONE,
        }
    }
}

/// Reads the source to its end, makes the whole output, and then writes it.
fn select<S: Source, K: Sink>(
    alloc: Global,
    query: &Query,
    source: &mut S,
    sink: &mut K,
) -> Result<RowCounts, Stopped>
    ensures selected { IfOk result (λ counts. IfSome (S.rest source.old)
        (WroteAll query.now (K.written sink.old) (K.written sink.new) counts)) }
    ensures source { OnOk result (SourceWent S.counts S.rest source.old source.new None) }
    ensures sink { OnOk result (SinkStands K.counts sink.old sink.new None) }

    ensures selected_in_part { IfErr result (λ e. StopsWith query.now (S.rest source.old)
        (K.written sink.old) (K.written sink.new) e.counts e.error) }
    ensures source_stopped { IfErr result (λ e. SourceWent S.counts S.rest source.old source.new
        (Some (RunFault.Select e.error))) }
    ensures sink_stopped { IfErr result (λ e. SinkStands K.counts sink.old sink.new
        (Some (RunFault.Select e.error))) }
    ensures unbuilt { IfErr result (λ e. e.error ≡ SelectError.Unbuilt
        → IfSome (S.rest source.old) (λ input. IsSomeStream input → ⊥)) }
{
    let input = read_to_end(alloc, source)?;
    let output = output_for(alloc, query, &input)?;
    if let Err(short) = write_all(sink, &output.bytes) {
        return Err(Stopped {
            error: SelectError::WriteFault,
            counts: counts_within(&output.prefixes, short.written),
        });
    }
    match sink.flush() {
        Ok(()) => Ok(output.counts),
        Err(SinkFailed) => Err(Stopped {
            error: SelectError::WriteFault,
            counts: output.counts,
        }),
    }
}
