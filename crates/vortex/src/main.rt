//! `vortex select . OP i64:N` reads a stream of a column on standard input, writes the stream of
//! the rows that are kept on standard output, and leaves one line on standard error.
#![tactic(auto)]

ghost use Rattle.std.specs.Prelude.{◌≡◌, ◌<◌};

use std::marker::Brand;
use std::process::ExitCode;
use std::rt::Env;
use std::sync::ledger::{Blank, Ledger};
use std::{env, io};
use vortex_select::run;
use vortex_steps::Steps;
use vortex_stream::{ReadSource, WriteSink};

/// The words of the command line cannot be had, for another reason than lack of memory.
const NO_WORDS: u8 = 1;

/// Lack of memory, as the run itself answers it.
const NO_MEMORY: u8 = 9;

fn words<R: Env + AllocGlobal>(rt: &R) -> io::Result<Vec<String>> {
    let mut words = Vec::new(rt.alloc());
    for word in env::args(rt)?.skip(1) {
        words.push(word)?;
    }
    Ok(words)
}

/// Runs over the standard streams, counting steps in a ledger of its own.
fn run_on_standard_streams<L: Ledger>(rt: &HostRuntime, blank: Blank, words: &[String]) -> u8
    requires name { blank.name ≡ L.name }
    requires parts { blank.parts ≡ L.parts }
    requires some { 0 < blank.parts }
{
    let mut source = ReadSource::new(rt.stdin());
    let mut sink = WriteSink::new(rt.stdout());
    let mut note = WriteSink::new(rt.stderr());
    let mut steps = Steps::<L>::new(blank);
    run(
        rt.alloc(),
        words,
        &mut source,
        &mut sink,
        &mut note,
        &mut steps,
    )
    .status
}

fn main(rt: HostRuntime) -> ExitCode {
    let status = match words(&rt) {
        Ok(words) => run_on_standard_streams::<Brand>(&rt, Blank::new(1), &words),
        Err(error) if error.kind() == io::ErrorKind::OutOfMemory => NO_MEMORY,
        Err(_) => NO_WORDS,
    };
    ExitCode::from(status)
}
