//! Answers questions from standard input, one a line, each by one call of the public surface of
//! these crates. What is asked and what is answered is told in the crate's README.
#![tactic(auto)]

mod answers;
mod arrays;
mod jsons;
mod messages;
mod operations;
mod protos;
mod scalars;
mod types;
mod words;

use crate::answers::answer;
use std::io;
use std::io::{BufRead, BufReader, BufWriter, Write};

fn main(rt: HostRuntime) -> anyhow::Result<()> {
    let alloc = rt.alloc();
    let mut out = BufWriter::new(alloc, io::writer(&rt))?;
    for line in BufReader::new(alloc, rt.reader())?.lines(alloc) {
        let line = line?;
        let text = answer(alloc, line.as_str())?;
        writeln!(out, "{text}")?;
    }
    out.flush()?;
    Ok(())
}
