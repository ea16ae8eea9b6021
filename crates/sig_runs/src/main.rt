//! Whole runs of the program `signals` as cases: a line of text says the words, the input, or that it runs, and what is
//! printed is the status, how often the input was asked, how much of it is left, and what the run wrote.
//!
//! ```text
//!     words <word> <word> ..     the words, with one space between them; two spaces make an empty word
//!     piece <count>              at most so many bytes of the input a call; at first each call gives all that fits
//!     line <text>                adds a line to the input
//!     text <text>                adds the text to the input, without an end of line
//!     repeat <count> <text>      adds the text so many times, without an end of line
//!     run                        runs over the input, which is empty then
//! ```
//!
//! Empty lines and lines that begin with `#` are passed over. It is no part of the product: it makes `run` reachable by
//! lines, so that a table of runs is data. The status is 0 at the end of the cases, 1 at a line that is no case, 3 and 4
//! where input or output fail, and 9 where memory ends.
#![tactic(auto)]

mod case;
mod fault;

use crate::case::Case;
use crate::fault::{Fault, input_fault};
use sig_outside::{Line, Lines, Sink, Source};
use sig_system::{ReaderSource, WriterSink};
use std::alloc::Global;
use std::process::ExitCode;

// Bytes of a line at most.
const ROOM: usize = 16_384;

fn main(rt: HostRuntime) -> ExitCode {
    let mut input = ReaderSource::new(rt.stdin());
    let mut output = WriterSink::new(rt.stdout());
    match take_all(rt.alloc(), &mut input, &mut output) {
        Ok(()) => ExitCode::SUCCESS,
        Err(fault) => ExitCode::from(fault.status()),
    }
}

fn take_all<I: Source, O: Sink>(alloc: Global, input: &mut I, output: &mut O) -> Result<(), Fault> {
    let mut lines = Lines::new(alloc);
    let mut case = Case::new(alloc);
    for _ in 0..u64::MAX {
        match lines.next(input, ROOM) {
            Ok(Line::Text { bytes, .. }) => case.take(bytes.as_slice(), output)?,
            Ok(Line::Long { .. }) => return Err(Fault::Case),
            Ok(Line::End) => return Ok(()),
            Err(fault) => return Err(input_fault(fault)),
        }
    }
    Ok(())
}
