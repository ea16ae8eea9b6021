//! The program `sig_turns`: calls at a transmitter's core, reachable by lines of text (OpenID Shared Signals Framework 1.0,
//! section 8.1; RFC 8935; RFC 8936).
//!
//!     line -> `calls` -> call -> answer -> `answers` -> words after the line's number
//!                             -> fact, of which the core takes in a copy, as it does of one that was journalled
//!
//! It is no part of the product. It stands beside `sig_cases`, and says what no line of a script does: rules that change,
//! polls that acknowledge and refuse tokens, reasons and states, and the calls of pushes. Its words are
//!
//!     rules <json>       the rules of later calls; at first there are no clients
//!     call <json>        a call, by its name and its parts
//!     owed <stream>      how many tokens a stream owes
//!     clear              a core without streams; the rules stay
//!
//! Promised: it returns, and each status but 0 has its cause. Its input and expected output are made by
//! `tools/generate.py`, and never by this program.
#![tactic(auto)]

mod answers;
mod calls;
mod turns;

use crate::turns::Turns;
use sig_lines::run;
use sig_system::{ReaderSource, WriterSink};
use std::process::ExitCode;

// The status of a run for which memory runs out.
const MEMORY: u8 = 9;

fn main(rt: HostRuntime) -> ExitCode {
    let mut input = ReaderSource::new(rt.stdin());
    let mut output = WriterSink::new(rt.stdout());
    match Turns::new(rt.alloc()) {
        Ok(mut turns) => ExitCode::from(run(rt.alloc(), &mut turns, &mut input, &mut output)),
        Err(_) => ExitCode::from(MEMORY),
    }
}
