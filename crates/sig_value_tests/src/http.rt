//! Messages of a source or to a sink that fails at one of its calls.

use crate::calls::calls;
use sig_http::{HttpFault, Kept, Request, SendFault, read_request, read_response, write_request};
use sig_json::{Bytes, Memory, Text};
use sig_outside::{MemSink, MemSource, Place};
use std::alloc::Global;
use std::test::Fail;

// A request and the first bytes of the next one.
const PUSH: &[u8] =
    b"POST /push HTTP/1.1\r\nhost: rp.example:8443\r\nauthorization: Bearer abc\r\ncontent-length: 5\r\n\r\nhelloGET";

// A response in chunks.
const CHUNKS: &[u8] =
    b"HTTP/1.1 200 OK\r\ntransfer-encoding: chunked\r\n\r\n3\r\nabc\r\n2;x\r\nde\r\n0\r\n\r\n";

// The source of these bytes, seven a call, of whose calls this one fails.
fn failing_source(alloc: Global, bytes: &[u8], call: u64) -> Result<MemSource, Memory> {
    let failing = calls(alloc, Some(call))?;
    Ok(MemSource::in_pieces(Bytes::of(alloc, bytes)?, 7, failing))
}

// Why no request is read where this call fails, if none is.
fn failed_request(alloc: Global, call: u64) -> Result<Option<HttpFault>, Memory> {
    let mut source = failing_source(alloc, PUSH, call)?;
    Ok(read_request(alloc, &mut source, &mut Kept::new(alloc)).err())
}

// The same of the response, with calls in its head and in its chunks.
fn failed_response(alloc: Global, call: u64) -> Result<Option<HttpFault>, Memory> {
    let mut source = failing_source(alloc, CHUNKS, call)?;
    Ok(read_response(alloc, &mut source, &mut Kept::new(alloc)).err())
}

#[test]
fn a_source_that_fails_ends_a_message(rt: HostRuntime) -> Result<(), Fail> {
    for call in [0, 5, 13] {
        assert!(rt;
            failed_request(rt.alloc(), call)? == Some(HttpFault::Link),
            "call {call}"
        );
    }
    for call in [0, 3, 9] {
        assert!(rt;
            failed_response(rt.alloc(), call)? == Some(HttpFault::Link),
            "call {call}"
        );
    }
    Ok(())
}

fn place(alloc: Global) -> Result<Place, Memory> {
    Ok(Place {
        host: Text::of(alloc, "tx.example")?,
        port: 80,
    })
}

fn asking(alloc: Global) -> Result<Request, Memory> {
    Ok(Request {
        method: Text::of(alloc, "POST")?,
        path: Text::of(alloc, "/poll")?,
        query: Text::of(alloc, "a=1")?,
        bearer: None,
        close: false,
        body: Bytes::new(alloc),
    })
}

// Writes the request to a sink.
fn ask(alloc: Global, sink: &mut MemSink) -> Result<(), SendFault> {
    let place = place(alloc)?;
    let request = asking(alloc)?;
    write_request(alloc, sink, &place, &request, "application/json", true)
}

// Whether a sink that fails in the third call has what it took before, nine bytes a call.
fn has_the_first_bytes(alloc: Global) -> Result<bool, Memory> {
    let mut sink = MemSink::in_pieces(alloc, 9, calls(alloc, None)?, calls(alloc, Some(2))?);
    let has_failed = matches!(ask(alloc, &mut sink), Err(SendFault::Link));
    Ok(has_failed && sink.bytes() == b"POST /poll?a=1 HTT".as_slice())
}

#[test]
fn a_sink_that_fails_has_the_first_bytes(rt: HostRuntime) -> Result<(), Fail> {
    assert!(rt; has_the_first_bytes(rt.alloc())?);
    Ok(())
}
