//! The program `sig_cases`: the crates' public calls, reachable by lines of text.
//!
//!     line -> word and rest -> call -> answer after the line's number
//!
//! It is no part of the product. It makes tables of cases data: a reader of the standards checks its input and output
//! without the code, and tools of another hand make more of them. A line is a word and, after one space, what the word
//! asks about; the words stand in `word`, and what each is answered in `base`, `subjects`, `tokens`, `table`, `streams`,
//! `messages`, `records`, `bodies`, `routes` and `replies`. `sig_lines` reads the lines, puts the answers, and says how
//! bytes, texts and values stand in them.
//!
//! Promised: it returns, and each status but 0 has its cause. Its input and expected output are made by
//! `tools/generate.py`, and never by this program.
#![tactic(auto)]

mod asked;
mod base;
mod bench;
mod bodies;
mod messages;
mod records;
mod replies;
mod routes;
mod streams;
mod subjects;
mod table;
mod tokens;
mod word;

use crate::bench::Bench;
use sig_lines::run;
use sig_system::{ReaderSource, WriterSink};
use std::process::ExitCode;

// The status of a run for which memory runs out.
const MEMORY: u8 = 9;

fn main(rt: HostRuntime) -> ExitCode {
    let mut input = ReaderSource::new(rt.stdin());
    let mut output = WriterSink::new(rt.stdout());
    match Bench::new(rt.alloc()) {
        Ok(mut bench) => ExitCode::from(run(rt.alloc(), &mut bench, &mut input, &mut output)),
        Err(_) => ExitCode::from(MEMORY),
    }
}
