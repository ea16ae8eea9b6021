//! What the adapters do over a reader and a writer that are interrupted. Each program reads and writes by them.

use sig_outside::{Sink, Source};
use sig_system::{ReaderSource, WriterSink};
use std::io;
use std::io::{ErrorKind, Read, Write};
use std::test::Fail;

// A reader and a writer that the system interrupts twice before each call.
#[derive(Drop)]
struct Interrupted {
    calls: u8,
}

impl Interrupted {
    fn is_interrupted(&mut self) -> bool {
        self.calls = self.calls.wrapping_add(1);
        self.calls % 3 != 0
    }
}

impl Read for Interrupted {
    fn read(&mut self, _buf: &mut [u8]) -> io::Result<usize> {
        if self.is_interrupted() {
            return Err(io::Error::from(ErrorKind::Interrupted));
        }
        Ok(0)
    }
}

impl Write for Interrupted {
    fn write(&mut self, buf: &[u8]) -> io::Result<usize> {
        if self.is_interrupted() {
            return Err(io::Error::from(ErrorKind::Interrupted));
        }
        Ok(buf.len())
    }

    fn flush(&mut self) -> io::Result<()> {
        Ok(())
    }
}

#[test]
fn an_interrupted_call_is_tried_again(rt: HostRuntime) -> Result<(), Fail> {
    let mut source = ReaderSource::new(Interrupted { calls: 0 });
    let mut buf = [0u8; 2];
    assert_eq!(rt; source.take(&mut buf), Ok(0));
    let mut sink = WriterSink::new(Interrupted { calls: 0 });
    assert_eq!(rt; sink.put(b"xyz"), Ok(3));
    Ok(())
}
