//! The way in: the program's words, standard input and output, and the system as the outside.

use crate::words::run;
use sig_program::{after_name, start, words};
use sig_system::{ReaderSource, SystemOutside, WriterSink};
use std::process::ExitCode;
use std::sync::Wait;
use std::thread::Threads;

/// Runs the program over what the system gives it, by the leave to wait that only `main` can give. Words that are no text, or
/// could not be held, end as `sig_program::start` ends them. Why the settings, a store or the door couldn't be had is said on
/// standard error too.
pub fn enter<W: Threads + Wait + Sync>(wait: &W, rt: &HostRuntime) -> ExitCode {
    let alloc = rt.alloc();
    let mut input = ReaderSource::new(rt.stdin());
    let mut output = WriterSink::new(rt.stdout());
    match words(rt) {
        Ok(words) => {
            let words = after_name(words.as_slice());
            let mut outside = SystemOutside::new(alloc, rt);
            let status = run(alloc, wait, words, &mut input, &mut output, &mut outside);
            if let Some(fault) = outside.last_fault() {
                let _ = eprintln!(rt; "signals: {fault}");
            }
            ExitCode::from(status)
        }
        Err(error) => ExitCode::from(start(alloc, Err(error), &mut input, &mut output)),
    }
}
