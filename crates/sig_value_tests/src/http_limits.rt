//! Bodies of the greatest length, for which no line has room. Where one is longer than it may be is said by lines.

use crate::calls::calls;
use sig_http::{Got, HttpFault, Kept, read_request, read_response};
use sig_json::{Bytes, Memory};
use sig_outside::MemSource;
use std::alloc::Global;
use std::test::Fail;

// Adds so many times 64 bytes.
fn fill(bytes: &mut Bytes, count: usize) -> Result<(), Memory> {
    for _ in 0..count {
        bytes.add(&[b'b'; 64])?;
    }
    Ok(())
}

fn source(alloc: Global, bytes: Bytes) -> Result<MemSource, Memory> {
    Ok(MemSource::in_pieces(bytes, 1000, calls(alloc, None)?))
}

// A request whose body comes in two chunks of the limit's half.
fn in_chunks(alloc: Global) -> Result<Bytes, Memory> {
    let mut bytes = Bytes::of(
        alloc,
        b"POST / HTTP/1.1\r\nhost: a\r\ntransfer-encoding: chunked\r\n\r\n8000\r\n",
    )?;
    fill(&mut bytes, 512)?;
    bytes.add(b"\r\n8000\r\n")?;
    fill(&mut bytes, 512)?;
    bytes.add(b"\r\n0\r\n\r\n")?;
    Ok(bytes)
}

// How long the body of that request is as it is read.
fn request_length(alloc: Global) -> Result<usize, HttpFault> {
    let mut source = source(alloc, in_chunks(alloc)?)?;
    match read_request(alloc, &mut source, &mut Kept::new(alloc))? {
        Got::Request(request) => Ok(request.body.as_slice().len()),
        Got::End => Ok(0),
    }
}

#[test]
fn chunks_of_the_limit_are_taken(rt: HostRuntime) -> Result<(), Fail> {
    assert!(rt; request_length(rt.alloc()) == Ok(65_536));
    Ok(())
}

// A response whose body of the limit, and these bytes more, ends where its source ends.
fn to_the_end(alloc: Global, more: &[u8]) -> Result<Bytes, Memory> {
    let mut bytes = Bytes::of(alloc, b"HTTP/1.1 200 OK\r\n\r\n")?;
    fill(&mut bytes, 8192)?;
    bytes.add(more)?;
    Ok(bytes)
}

// How long the body of that response is as it is read.
fn response_length(alloc: Global, more: &[u8]) -> Result<usize, HttpFault> {
    let mut source = source(alloc, to_the_end(alloc, more)?)?;
    let response = read_response(alloc, &mut source, &mut Kept::new(alloc))?;
    Ok(response.body.as_slice().len())
}

#[test]
fn a_body_to_the_end_of_the_source_has_a_limit(rt: HostRuntime) -> Result<(), Fail> {
    assert!(rt; response_length(rt.alloc(), b"") == Ok(524_288));
    assert!(rt; response_length(rt.alloc(), b"b") == Err(HttpFault::BodyLong));
    Ok(())
}
