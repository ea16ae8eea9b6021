use crate::fault::Fault;
use sig_json::{Bytes, Items};
use sig_outside::{MemSink, MemSource, Sink, put_all};
use sig_program::run;
use std::alloc::Global;
use std::str::from_utf8;

/// The run that the lines so far say.
#[derive(Drop)]
pub struct Case {
    alloc: Global,
    words: Vec<String>,
    input: Bytes,
    piece: usize,
}

impl Case {
    /// No words, and an empty input that each call gives whole.
    pub fn new(alloc: Global) -> Case {
        Case {
            alloc,
            words: Vec::new(alloc),
            input: Bytes::new(alloc),
            piece: usize::MAX,
        }
    }

    /// Takes a line, and prints what a run did.
    pub fn take<O: Sink>(&mut self, line: &[u8], output: &mut O) -> Result<(), Fault> {
        let Ok(text) = from_utf8(line) else {
            return Err(Fault::Case);
        };
        if text.is_empty() || text.starts_with('#') {
            return Ok(());
        }
        if text == "run" {
            return self.run(output);
        }
        match text.split_once(' ') {
            Some((word, rest)) => self.say(word, rest),
            None => Err(Fault::Case),
        }
    }

    fn say(&mut self, word: &str, rest: &str) -> Result<(), Fault> {
        match word {
            "words" => self.set_words(rest),
            "piece" => self.set_piece(rest),
            "line" => {
                self.input.add(rest.as_bytes())?;
                self.input.add(b"\n")?;
                Ok(())
            }
            "text" => {
                self.input.add(rest.as_bytes())?;
                Ok(())
            }
            "repeat" => self.repeat(rest),
            _ => Err(Fault::Case),
        }
    }

    fn set_words(&mut self, text: &str) -> Result<(), Fault> {
        self.words.clear();
        if text.is_empty() {
            return Ok(());
        }
        for word in text.split(' ') {
            self.words.push(String::from_str(self.alloc, word)?)?;
        }
        Ok(())
    }

    fn set_piece(&mut self, count: &str) -> Result<(), Fault> {
        let Ok(piece) = count.parse::<usize>() else {
            return Err(Fault::Case);
        };
        self.piece = piece;
        Ok(())
    }

    fn repeat(&mut self, rest: &str) -> Result<(), Fault> {
        let Some((count, text)) = rest.split_once(' ') else {
            return Err(Fault::Case);
        };
        let Ok(count) = count.parse::<u32>() else {
            return Err(Fault::Case);
        };
        for _ in 0..count {
            self.input.add(text.as_bytes())?;
        }
        Ok(())
    }

    // Runs the program over the input, in memory, and prints what it did.
    fn run<O: Sink>(&mut self, output: &mut O) -> Result<(), Fault> {
        let never = Items::of(Vec::new(self.alloc));
        let input = self.input.copy(self.alloc)?;
        self.input.clear();
        let mut source = MemSource::in_pieces(input, self.piece, never);
        let mut sink = MemSink::new(self.alloc, Items::of(Vec::new(self.alloc)));
        let status = run(self.alloc, self.words.as_slice(), &mut source, &mut sink);
        let asked = source.calls();
        let left = source.rest().len();
        let told = format!(in self.alloc; "status {status} asked {asked} left {left}\n")?;
        put(output, told.as_bytes())?;
        put(output, sink.bytes())
    }
}

fn put<O: Sink>(output: &mut O, bytes: &[u8]) -> Result<(), Fault> {
    match put_all(output, bytes) {
        Ok(()) => Ok(()),
        Err(_) => Err(Fault::Output),
    }
}
