//! The way in: the program's words, standard input and standard output.

use crate::running::start;
use sig_system::{ReaderSource, WriterSink};
use std::process::ExitCode;
use std::{env, io};

/// Runs the program over what the system gives it.
pub fn enter(rt: &HostRuntime) -> ExitCode {
    let mut input = ReaderSource::new(rt.stdin());
    let mut output = WriterSink::new(rt.stdout());
    ExitCode::from(start(rt.alloc(), words(rt), &mut input, &mut output))
}

/// All words that the system gives, the program's own name first.
pub fn words(rt: &HostRuntime) -> io::Result<Vec<String>> {
    let mut words = Vec::new(rt.alloc());
    for word in env::args(rt)? {
        words.push(word)?;
    }
    Ok(words)
}
