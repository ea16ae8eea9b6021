//! Measures the journal and the receiver's node over real files, and HTTP messages, records, poll responses and the
//! transmitter's core in memory: what the scripts under `bench/` run.
//!
//!     append <a> <b> <count> <bytes>   appends so many records of so many bytes to a store, which it makes where there is none
//!     bare <file> <count> <bytes>      two writes and two syncs a record, without a journal
//!     fill <a> <b> <count> <bytes>     makes a store with so many records, synced once
//!     load <a> <b>                     loads a store, and prints how many records it has or where it is damaged
//!     take <a> <b> <count> <token>     brings so many tokens, which say what this one does, to a receiver's node
//!     tokens <a> <b> <count> <token>   makes a receiver's store with so many such tokens, synced once
//!     node <a> <b>                     loads a receiver's node, and prints how many tokens it has
//!     push <count>                     reads a push request and writes its response, so often
//!     chunks <count> <bytes>           reads a response in so many chunks of so many bytes
//!     publish <count> <streams>        publishes so often over so many streams
//!     poll <before> <count> <acks>     publishes so often and acknowledges all, publishes so often again, and polls once with so
//!                                      many acknowledgements
//!     decode <count> <record>          decodes the record of a fact that this word of base64url spells, so often
//!     encode <count> <record>          encodes its fact, so often
//!     sets <count> <token>             writes a poll response with a page of tokens that say what this one does, so often
//!     signs <count> <token>            signs the payloads of that page alone, so often
//!
//! Left out: time, which the scripts take.
#![tactic(auto)]

ghost use Rattle.std.specs.Prelude.{◌≤◌, IfOk};

mod bare;
mod messages;
mod nodes;
mod records;
mod sets;
mod store;
mod transmitter;

use crate::bare::write_bare;
use crate::messages::{exchange_pushes, read_chunks};
use crate::nodes::{fill_tokens, load_tokens, take_tokens};
use crate::records::{decode_records, encode_records};
use crate::sets::{sign_pages, write_pages};
use crate::store::{append_records, count_records, fill_store};
use crate::transmitter::{poll_once, publish_often};
use sig_json::MemoryRefusal;
use std::alloc::Global;
use std::process::ExitCode;
use std::{env, io};

/// Why a run stopped.
#[derive(Clone, Copy, Debug, PartialEq, Eq)]
pub enum Stopped {
    /// The words are those of no run.
    Words,
    /// A file can't be opened, or is in use.
    Open,
    /// A disk failed.
    Store,
    /// The store is damaged in this file at this offset.
    Damaged { file: u8, at: u64 },
    /// The journal would end past 2^62.
    Full,
    /// A message can't be read or written.
    Message,
    /// The bytes are no record, or the text is no token.
    Record,
    /// The transmitter's core refused a call.
    Core,
    /// Out of memory.
    Memory,
}

impl<R: MemoryRefusal> From<R> for Stopped {
    fn from(_refusal: R) -> Stopped {
        Stopped::Memory
    }
}

fn main(rt: HostRuntime) -> ExitCode {
    let Ok(words) = words(&rt) else {
        return ExitCode::FAILURE;
    };
    let told = match run(&rt, words.as_slice()) {
        Ok(number) => {
            let unit = unit(words.as_slice());
            println!(rt; "{unit} {number}")
        }
        Err(Stopped::Damaged { file, at }) => println!(rt; "damaged {file} {at}"),
        Err(stopped) => println!(rt; "{stopped:?}"),
    };
    match told {
        Ok(()) => ExitCode::SUCCESS,
        Err(_) => ExitCode::FAILURE,
    }
}

// The words behind the program's own name.
fn words(rt: &HostRuntime) -> io::Result<Vec<String>> {
    let mut words = Vec::new(rt.alloc());
    for word in env::args(rt)?.skip(1) {
        words.push(word)?;
    }
    Ok(words)
}

// What a run counts.
fn unit(words: &[String]) -> &'static str {
    match words {
        [mode, _] if mode.as_str() == "push" => "requests",
        [mode, _, _] if mode.as_str() == "chunks" => "bytes",
        [mode, _, _] if mode.as_str() == "sets" || mode.as_str() == "signs" => "pages",
        [mode, _, _] if mode.as_str() == "publish" => "owed",
        [mode, _, _, _] if mode.as_str() == "poll" => "owed",
        _ => "records",
    }
}

// How many records a run wrote or found, requests or bytes it read.
fn run(rt: &HostRuntime, words: &[String]) -> Result<u64, Stopped> {
    let alloc = rt.alloc();
    match words {
        [mode, count] if mode.as_str() == "push" => exchange_pushes(alloc, number(count)?),
        [mode, count, streams] if mode.as_str() == "publish" => {
            publish_often(alloc, number(count)?, number(streams)?)
        }
        [mode, before, count, acks] if mode.as_str() == "poll" => {
            poll_once(alloc, number(before)?, number(count)?, number(acks)?)
        }
        [mode, count, bytes] if mode.as_str() == "chunks" => {
            read_chunks(alloc, number(count)?, number(bytes)?)
        }
        [mode, file, count, bytes] if mode.as_str() == "bare" => {
            write_bare(alloc, rt, file.as_str(), number(count)?, number(bytes)?)
        }
        [mode, a, b] if mode.as_str() == "load" => count_records(alloc, rt, a.as_str(), b.as_str()),
        [mode, a, b] if mode.as_str() == "node" => load_tokens(alloc, rt, a.as_str(), b.as_str()),
        [mode, a, b, count, word] => run_on_store(
            rt,
            mode.as_str(),
            a.as_str(),
            b.as_str(),
            number(count)?,
            word,
        ),
        [mode, count, word] => run_over(alloc, mode.as_str(), number(count)?, word.as_str()),
        _ => Err(Stopped::Words),
    }
}

// The runs that write to a store, so often.
fn run_on_store(
    rt: &HostRuntime,
    mode: &str,
    a: &str,
    b: &str,
    count: u64,
    word: &String,
) -> Result<u64, Stopped> {
    let alloc = rt.alloc();
    match mode {
        "append" => append_records(alloc, rt, a, b, count, number(word)?),
        "fill" => fill_store(alloc, rt, a, b, count, number(word)?),
        "take" => take_tokens(alloc, rt, a, b, count, word.as_str()),
        "tokens" => fill_tokens(alloc, rt, a, b, count, word.as_str()),
        _ => Err(Stopped::Words),
    }
}

// The runs over one record, or one token.
fn run_over(alloc: Global, mode: &str, count: u64, word: &str) -> Result<u64, Stopped> {
    match mode {
        "decode" => decode_records(alloc, count, word),
        "encode" => encode_records(alloc, count, word),
        "sets" => write_pages(alloc, count, word),
        "signs" => sign_pages(alloc, count, word),
        _ => Err(Stopped::Words),
    }
}

// A number of at most a million.
fn number(word: &String) -> Result<u64, Stopped>
    ensures { IfOk result (λ n. n ≤ 1000000) }
{
    match word.as_str().parse::<u64>() {
        Ok(number) if number <= 1_000_000 => Ok(number),
        _ => Err(Stopped::Words),
    }
}
