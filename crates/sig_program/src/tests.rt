//! Runs whose input or output fails. Whole runs are the cases of `sig_runs`.

use crate::run;
use sig_json::{Bytes, Items, Memory};
use sig_outside::{MemSink, MemSource};
use std::alloc::Global;
use std::test::Fail;

const ISS: &str = "https://idp.example";

const AUD: &str = "https://rp.example";

const KEY: &str = "MDEyMzQ1Njc4OWFiY2RlZjAxMjM0NTY3ODlhYmNkZWY";

fn texts(alloc: Global, words: &[&str]) -> Result<Vec<String>, Memory> {
    let mut list = Vec::new(alloc);
    for word in words {
        list.push(String::from_str(alloc, word)?)?;
    }
    Ok(list)
}

fn joined(alloc: Global, pieces: &[&str]) -> Result<Bytes, Memory> {
    let mut bytes = Bytes::new(alloc);
    for piece in pieces {
        bytes.add(piece.as_bytes())?;
    }
    Ok(bytes)
}

fn at(alloc: Global, call: u64) -> Result<Items<u64>, Memory> {
    let mut list = Vec::new(alloc);
    list.push(call)?;
    Ok(Items::of(list))
}

fn never(alloc: Global) -> Items<u64> {
    Items::of(Vec::new(alloc))
}

// The input of the tables of faults, and what its lines print.
const INPUT: &str = "a.b.c\n\nx\r\ny\n.\nz";

const VERDICTS: [&str; 6] = [
    "1 refused invalid_request compact\n",
    "",
    "3 refused invalid_request compact\n",
    "4 refused invalid_request compact\n",
    "5 refused invalid_request compact\n",
    "6 refused invalid_request compact\n",
];

// How many line ends stand in the first bytes.
fn ends_in(bytes: &[u8], count: usize) -> usize {
    let mut ends = 0usize;
    for byte in bytes.iter().take(count) {
        if *byte == b'\n' {
            ends = ends.saturating_add(1);
        }
    }
    ends
}

#[test]
fn a_failed_input_ends_after_the_lines_that_were_read(rt: HostRuntime) -> Result<(), Fail> {
    let words = texts(rt.alloc(), &["fold", ISS, AUD, KEY])?;
    for piece in [1usize, 7, 100] {
        for call in 0..40usize {
            let failed = take_of(rt.alloc(), words.as_slice(), piece, call)?;
            assert!(rt; failed < 2, "piece {piece} call {call}");
            if failed == 0 {
                break;
            }
        }
    }
    Ok(())
}

// Runs over a source that fails at a call: 0 where it had given everything before, 1 where the run ended with status 3
// after the lines that were read, and 2 otherwise.
fn take_of(alloc: Global, words: &[String], piece: usize, call: usize) -> Result<u8, Memory> {
    let read = piece.saturating_mul(call);
    let wanted = failed_text(alloc, lines_before(read, piece))?;
    let input = Bytes::of(alloc, INPUT.as_bytes())?;
    let mut source = MemSource::in_pieces(input, piece, at(alloc, call as u64)?);
    let mut sink = MemSink::new(alloc, never(alloc));
    let status = run(alloc, words, &mut source, &mut sink);
    Ok(match status {
        0 if read > INPUT.len() => 0,
        3 if sink.bytes() == wanted.as_slice() => 1,
        _ => 2,
    })
}

// What a run prints whose input fails after so many lines.
fn failed_text(alloc: Global, lines: usize) -> Result<Bytes, Memory> {
    let mut text = Bytes::new(alloc);
    for verdict in VERDICTS.iter().take(lines) {
        text.add(verdict.as_bytes())?;
    }
    text.add(b"signals: input failed\n")?;
    Ok(text)
}

// How many lines are known where the input failed and so many bytes were asked for in such pieces before: those that end
// with an LF, and the last one too where a call told the end of the input before.
fn lines_before(asked: usize, piece: usize) -> usize {
    if asked >= INPUT.len().saturating_add(piece) {
        6
    } else {
        ends_in(INPUT.as_bytes(), asked)
    }
}

#[test]
fn a_failed_output_ends_after_a_prefix_of_the_text(rt: HostRuntime) -> Result<(), Fail> {
    let words = texts(rt.alloc(), &["fold", ISS, AUD, KEY])?;
    let mut whole = joined(rt.alloc(), &VERDICTS)?;
    whole.add(b"rows 0 tokens 0\n")?;
    for piece in [1usize, 7, 1_000] {
        for call in 0..250u64 {
            let failed = put_of(
                rt.alloc(),
                words.as_slice(),
                whole.as_slice(),
                piece,
                false,
                call,
            )?;
            let stuck = put_of(
                rt.alloc(),
                words.as_slice(),
                whole.as_slice(),
                piece,
                true,
                call,
            )?;
            assert_eq!(rt; failed, stuck, "piece {piece} call {call}");
            assert!(rt; failed < 2, "piece {piece} call {call}");
            if failed == 0 {
                break;
            }
        }
    }
    Ok(())
}

// Runs over a sink that fails or takes nothing at a call: 0 where it wrote the whole text, 1 where it ended with status 4
// after a prefix of it, and 2 otherwise.
fn put_of(
    alloc: Global,
    words: &[String],
    whole: &[u8],
    piece: usize,
    idle: bool,
    call: u64,
) -> Result<u8, Memory> {
    let (stalls, fails) = if idle {
        (at(alloc, call)?, never(alloc))
    } else {
        (never(alloc), at(alloc, call)?)
    };
    let mut source = MemSource::in_pieces(Bytes::of(alloc, INPUT.as_bytes())?, 5, never(alloc));
    let mut sink = MemSink::in_pieces(alloc, piece, stalls, fails);
    let status = run(alloc, words, &mut source, &mut sink);
    let written = sink.bytes();
    Ok(match status {
        0 if written == whole => 0,
        4 if whole.starts_with(written) && written.len() < whole.len() => 1,
        _ => 2,
    })
}
