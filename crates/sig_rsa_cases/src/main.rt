//! Signatures of RS256 as cases: a line has a modulus, an exponent, a message and a signature, and what is printed is `yes`
//! or `no`, or `key` where modulus and exponent are no key.
//!
//! ```text
//!     <modulus> <exponent> <message> <signature>
//! ```
//!
//! The exponent is a decimal number, the others are bytes in hexadecimal, `-` for none. It is no part of the product: it makes
//! a key and its verification reachable by lines, so that signatures of another hand are data. The status is 0 at the end of
//! the cases, 1 at a line that is no case, 3 and 4 where input or output fail, and 9 where memory ends.
#![tactic(auto)]

use hex::FromHexError;
use sig_json::MemoryRefusal;
use sig_outside::{Line, LineFault, Lines, Sink, Source, put_all};
use sig_rs256::{PreparedRsaKey, RsaKey};
use sig_system::{ReaderSource, WriterSink};
use std::alloc::Global;
use std::process::ExitCode;
use std::str::from_utf8;

// Bytes of a line at most.
const ROOM: usize = 16_384;

/// Why the cases end before their last line.
#[derive(Clone, Copy)]
enum Fault {
    /// The line is no case.
    Case,
    /// The input failed.
    Input,
    /// The output failed, or takes nothing.
    Output,
    /// Out of memory.
    Memory,
}

impl<R: MemoryRefusal> From<R> for Fault {
    fn from(_refusal: R) -> Fault {
        Fault::Memory
    }
}

fn main(rt: HostRuntime) -> ExitCode {
    let mut input = ReaderSource::new(rt.stdin());
    let mut output = WriterSink::new(rt.stdout());
    match answer_all(rt.alloc(), &mut input, &mut output) {
        Ok(()) => ExitCode::SUCCESS,
        Err(Fault::Case) => ExitCode::from(1),
        Err(Fault::Input) => ExitCode::from(3),
        Err(Fault::Output) => ExitCode::from(4),
        Err(Fault::Memory) => ExitCode::from(9),
    }
}

fn answer_all<I: Source, O: Sink>(
    alloc: Global,
    input: &mut I,
    output: &mut O,
) -> Result<(), Fault> {
    let mut lines = Lines::new(alloc);
    for _ in 0..u64::MAX {
        let told = match lines.next(input, ROOM) {
            Ok(Line::Text { bytes, .. }) => answer(alloc, bytes.as_slice())?,
            Ok(Line::Long { .. }) => return Err(Fault::Case),
            Ok(Line::End) => return Ok(()),
            Err(LineFault::Memory) => return Err(Fault::Memory),
            Err(_) => return Err(Fault::Input),
        };
        if put_all(output, told.as_bytes()).is_err() {
            return Err(Fault::Output);
        }
    }
    Ok(())
}

// What is printed of a line.
fn answer(alloc: Global, line: &[u8]) -> Result<&'static str, Fault> {
    let Ok(text) = from_utf8(line) else {
        return Err(Fault::Case);
    };
    let mut words = text.split(' ');
    let modulus = bytes_of(alloc, words.next())?;
    let Ok(exponent) = words.next().unwrap_or("").parse::<u32>() else {
        return Err(Fault::Case);
    };
    let message = bytes_of(alloc, words.next())?;
    let signature = bytes_of(alloc, words.next())?;
    let Some(key) = RsaKey::of(alloc, None, modulus.as_slice(), exponent)? else {
        return Ok("key\n");
    };
    let key = PreparedRsaKey::of(alloc, &key)?;
    if key.verifies(message.as_slice(), signature.as_slice()) {
        Ok("yes\n")
    } else {
        Ok("no\n")
    }
}

// The bytes that a word spells.
fn bytes_of(alloc: Global, word: Option<&str>) -> Result<Vec<u8>, Fault> {
    match word {
        Some("-") => Ok(Vec::new(alloc)),
        Some(word) => match hex::decode(alloc, word) {
            Ok(bytes) => Ok(bytes),
            Err(FromHexError::OutOfMemory) => Err(Fault::Memory),
            Err(_) => Err(Fault::Case),
        },
        None => Err(Fault::Case),
    }
}
