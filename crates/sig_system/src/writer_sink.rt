ghost use Rattle.std.specs.Prelude.{◌≡◌, None};

use crate::write_again;
use sig_outside::{Failed, Sink};
use std::io::Write;

/// A sink over a writer. What is written is what the writer tells: of standard output nothing.
#[derive(Drop)]
pub struct WriterSink<W> {
    writer: W,
    faults: u64,
    stalls: u64,
}

impl<W: Write> WriterSink<W> {
    /// A sink that has met no fault.
    pub fn new(writer: W) -> WriterSink<W>
        ensures writer { result.writer ≡ writer }
        ensures faults { result.faults ≡ 0 }
        ensures stalls { result.stalls ≡ 0 }
    {
        WriterSink {
            writer,
            faults: 0,
            stalls: 0,
        }
    }
}

impl<W: Write> Sink for WriterSink<W> {
    ghost written = { λ s. W.contents s.writer };

    ghost beside = { λ s. None };

    ghost faults = { λ s. s.faults };

    ghost stalls = { λ s. s.stalls };

    fn put(&mut self, bytes: &[u8]) -> Result<usize, Failed> {
        let result = write_again(&mut self.writer, bytes);
        match result {
            Ok(0) if !bytes.is_empty() => self.stalls = self.stalls.saturating_add(1),
            Ok(_) => {}
            Err(_) => self.faults = self.faults.saturating_add(1),
        }
        result
    }
}
