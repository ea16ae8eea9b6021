//! Lines on HTTP messages (RFC 9112): the bytes of a whole source, and how many of them it gives a call at most.

ghost use Rattle.std.specs.Prelude.{◌≡◌, IfOk};
ghost use Rattle.sig_cases.specs.Told as spec;

use serde_json::json;
use sig_http::{Got, HttpFault, Kept, Request, Response, read_request, read_response};
use sig_json::{Bytes, Items, Memory, Value};
use sig_lines::{bare, cut_at_space, decoded, encoded_text, number_in, text_or_null};
use sig_outside::MemSource;
use std::alloc::Global;

/// What is read of the bytes as a request; none where the rest isn't a size and bytes.
pub fn request(alloc: Global, rest: &[u8]) -> Result<Option<Bytes>, Memory> {
    match source_in(alloc, rest)? {
        Some(mut source) => Ok(Some(request_from(alloc, &mut source)?)),
        None => Ok(None),
    }
}

fn request_from(alloc: Global, source: &mut MemSource) -> Result<Bytes, Memory> {
    let mut kept = Kept::new(alloc);
    match read_request(alloc, source, &mut kept) {
        Ok(Got::Request(request)) => got_request(alloc, &request, &kept, source),
        Ok(Got::End) => bare(alloc, "end"),
        Err(fault) => refused(alloc, fault),
    }
}

fn got_request(
    alloc: Global,
    request: &Request,
    kept: &Kept,
    source: &MemSource,
) -> Result<Bytes, Memory> {
    got(alloc, request_object(alloc, request)?, kept, source)
}

/// What is read of the bytes as a response; none where the rest isn't a size and bytes.
pub fn response(alloc: Global, rest: &[u8]) -> Result<Option<Bytes>, Memory> {
    match source_in(alloc, rest)? {
        Some(mut source) => Ok(Some(response_from(alloc, &mut source)?)),
        None => Ok(None),
    }
}

fn response_from(alloc: Global, source: &mut MemSource) -> Result<Bytes, Memory> {
    let mut kept = Kept::new(alloc);
    match read_response(alloc, source, &mut kept) {
        Ok(response) => got_response(alloc, &response, &kept, source),
        Err(fault) => refused(alloc, fault),
    }
}

fn got_response(
    alloc: Global,
    response: &Response,
    kept: &Kept,
    source: &MemSource,
) -> Result<Bytes, Memory> {
    got(alloc, response_object(alloc, response)?, kept, source)
}

// The source that two words name: how many bytes it gives a call at most, and its bytes.
fn source_in(alloc: Global, rest: &[u8]) -> Result<Option<MemSource>, Memory> {
    let Some((size, bytes)) = cut_at_space(rest) else {
        return Ok(None);
    };
    let Some(size) = number_in(size) else {
        return Ok(None);
    };
    let Some(bytes) = decoded(alloc, bytes)? else {
        return Ok(None);
    };
    let failing = Items::of(Vec::new(alloc));
    Ok(Some(MemSource::in_pieces(bytes, size as usize, failing)))
}

// The message, and how many bytes after it weren't used.
fn got(alloc: Global, message: Value, kept: &Kept, source: &MemSource) -> Result<Bytes, Memory> {
    let message = message.to_string(alloc)?;
    let left = kept.as_slice().len() + source.rest().len();
    let answer = format!(in alloc; "got {message} left {left}")?;
    bare(alloc, answer.as_str())
}

// The name of a refusal. No call of a source in memory fails here, so there is no word for that.
fn refused(alloc: Global, fault: HttpFault) -> Result<Bytes, Memory>
    ensures { IfOk result (λ t. t ≡ spec.message_refused fault) }
{
    match fault {
        HttpFault::Head => bare(alloc, "head"),
        HttpFault::Host => bare(alloc, "host"),
        HttpFault::HeadLong => bare(alloc, "head-long"),
        HttpFault::Length => bare(alloc, "length"),
        HttpFault::BodyLong => bare(alloc, "body-long"),
        HttpFault::Coding => bare(alloc, "coding"),
        HttpFault::Expect => bare(alloc, "expect"),
        HttpFault::Cut => bare(alloc, "cut"),
        HttpFault::Link => bare(alloc, "link"),
        HttpFault::Memory => Err(Memory),
    }
}

fn request_object(alloc: Global, request: &Request) -> Result<Value, Memory> {
    let bearer = text_or_null(alloc, &request.bearer)?;
    let body = encoded_text(alloc, request.body.as_slice())?;
    let value = json!(in alloc; {
        "bearer": bearer,
        "body": body.as_str(),
        "close": request.close,
        "method": request.method.as_str(),
        "path": request.path.as_str(),
        "query": request.query.as_str()
    })?;
    Ok(value)
}

fn response_object(alloc: Global, response: &Response) -> Result<Value, Memory> {
    let body = encoded_text(alloc, response.body.as_slice())?;
    let value = json!(in alloc; {
        "body": body.as_str(),
        "close": response.close,
        "status": response.status
    })?;
    Ok(value)
}
