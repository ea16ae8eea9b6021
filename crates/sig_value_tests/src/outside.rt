//! Sources, sinks and disks in memory that fail at one of their calls, and what is asked of them after that.

use crate::calls::calls;
use sig_json::{Bytes, Memory};
use sig_outside::{
    Disk, Line, Lines, MemDisk, MemSink, MemSource, PutFault, Sink, Source, put_all,
};
use std::alloc::Global;
use std::test::Fail;

// A room that each line fits.
const ROOM: usize = 8;

// What four calls give: each line with `|` after it, the end as `.` and a failure as `?`.
fn rendered(alloc: Global, source: &mut MemSource) -> Result<Bytes, Memory> {
    let mut lines = Lines::new(alloc);
    let mut out = Bytes::new(alloc);
    for _ in 0..4 {
        match lines.next(source, ROOM) {
            Ok(Line::Text { number: _, bytes }) => {
                out.add(bytes.as_slice())?;
                out.add(b"|")?;
            }
            Ok(_) => out.add(b".")?,
            Err(_) => out.add(b"?")?,
        }
    }
    Ok(out)
}

// The same of a source that gives two bytes a call, of whose calls this one fails.
fn failed_lines(alloc: Global, call: u64) -> Result<Bytes, Memory> {
    let failing = calls(alloc, Some(call))?;
    let mut source = MemSource::in_pieces(Bytes::of(alloc, b"ab\ncd\nef")?, 2, failing);
    rendered(alloc, &mut source)
}

// The calls give "ab", LF and "c", "d" and LF, "ef", and then nothing twice.
const FAILED: [(u64, &[u8]); 7] = [
    (0, b"????"),
    (1, b"????"),
    (2, b"ab|???"),
    (3, b"ab|cd|??"),
    (4, b"ab|cd|??"),
    (5, b"ab|cd|ef|?"),
    (6, b"ab|cd|ef|."),
];

#[test]
fn lines_end_where_a_call_fails_and_go_on_failing(rt: HostRuntime) -> Result<(), Fail> {
    for (call, told) in FAILED {
        assert!(rt;
            failed_lines(rt.alloc(), call)?.as_slice() == told,
            "call {call}"
        );
    }
    Ok(())
}

// What comes of putting eight bytes to a sink that takes three a call, and whether these are what it has then.
fn puts(sink: &mut MemSink, written: &[u8]) -> (Result<(), PutFault>, bool) {
    let put = put_all(sink, b"12345678");
    (put, sink.bytes() == written)
}

// Whether a sink whose call of this number takes nothing is stuck there.
fn is_stuck(alloc: Global, call: u64, written: &[u8]) -> Result<bool, Memory> {
    let mut sink = MemSink::in_pieces(alloc, 3, calls(alloc, Some(call))?, calls(alloc, None)?);
    Ok(puts(&mut sink, written) == (Err(PutFault::Stuck), true))
}

// Whether one whose call of this number fails has failed there.
fn has_failed(alloc: Global, call: u64, written: &[u8]) -> Result<bool, Memory> {
    let mut sink = MemSink::in_pieces(alloc, 3, calls(alloc, None)?, calls(alloc, Some(call))?);
    Ok(puts(&mut sink, written) == (Err(PutFault::Failed), true))
}

#[test]
fn a_prefix_is_put_where_a_call_fails_or_takes_nothing(rt: HostRuntime) -> Result<(), Fail> {
    assert!(rt; is_stuck(rt.alloc(), 1, b"123")?);
    assert!(rt; has_failed(rt.alloc(), 0, b"")?);
    assert!(rt; has_failed(rt.alloc(), 2, b"123456")?);
    Ok(())
}

#[test]
fn a_disk_reads_what_stands_there_or_fails(rt: HostRuntime) -> Result<(), Fail> {
    let alloc = rt.alloc();
    let mut disk = MemDisk::new(alloc, Bytes::of(alloc, b"abcdef")?, calls(alloc, Some(1))?);
    let mut buf = *b"....";
    assert!(rt; disk.read_at(4, &mut buf) == Ok(2));
    assert!(rt; buf == *b"ef..");
    assert!(rt; disk.read_at(4, &mut buf).is_err());
    assert!(rt; disk.read_at(9, &mut buf) == Ok(0));
    Ok(())
}

#[test]
fn a_write_past_all_memory_makes_the_disk_short(rt: HostRuntime) -> Result<(), Fail> {
    let alloc = rt.alloc();
    let mut disk = MemDisk::new(alloc, Bytes::of(alloc, b"abc")?, calls(alloc, None)?);
    assert!(rt; disk.write_at(1 << 62, b"x").is_err());
    assert!(rt; disk.short());
    assert!(rt; disk.size() == Ok(3));
    Ok(())
}

// Says of a type that its values can be moved into a thread.
fn moves<T: Send>() {}

#[test]
fn a_reader_and_its_ends_move_between_threads(_rt: HostRuntime) {
    moves::<MemSource>();
    moves::<MemSink>();
    moves::<Lines>();
}
