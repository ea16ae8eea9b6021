ghost use Rattle.std.specs.Prelude.{◌≡◌, ◌≤◌, ◌++◌, codes, decimal, unwrap_or, IfOk, IfErr, OnOk, OnErr, IsErrOf, length};
ghost use Rattle.std.specs.Io.KnownBytes.{Appends, Keeps};
ghost use Rattle.http.specs.StatusCode.{IsStatusCode, reason_phrase};
ghost use Rattle.sig_outside.specs.Causes.{AppendsPrefix, Raised};
ghost use Rattle.sig_http.specs.Spelling as spec;

use crate::{Header, Request, Response, SendFault};
use http::StatusCode;
use sig_json::{Bytes, Memory, Text};
use sig_outside::{Place, PutFault, Sink, put_all};
use std::alloc::Global;

/// Writes a request to this place, with a body of this kind; `language` says that its texts are in English.
///
/// The request's bearer is the whole value of the field `authorization`, and the request asks for closing whatever its
/// `close` says. `Link` comes exactly where a call of the sink failed, and `Stuck` exactly where one took nothing of a piece
/// that isn't empty: the one count is raised by one, and the other stays. After either a prefix of the request is written,
/// and nothing where memory ran out.
pub fn write_request<O: Sink>(
    alloc: Global,
    sink: &mut O,
    place: &Place,
    request: &Request,
    kind: &str,
    language: bool,
) -> Result<(), SendFault>
    ensures written { OnOk result (Appends (O.written sink.old) (O.written sink.new) (spec.request_spelling place.now request.now kind.now language)) }
    ensures prefix { OnErr result (AppendsPrefix (O.written sink.old) (O.written sink.new) (spec.request_spelling place.now request.now kind.now language)) }
    ensures memory { IsErrOf result SendFault.Memory → Keeps (O.written sink.old) (O.written sink.new) }
    ensures beside { O.beside sink.new ≡ O.beside sink.old }
    ensures later { O.faults sink.old ≤ O.faults sink.new }
    ensures link { IsErrOf result SendFault.Link → Raised (O.faults sink.old) (O.faults sink.new) }
    ensures steady { (IsErrOf result SendFault.Link → ⊥) → O.faults sink.new ≡ O.faults sink.old }
    ensures stuck { IsErrOf result SendFault.Stuck → Raised (O.stalls sink.old) (O.stalls sink.new) }
    ensures flows { (IsErrOf result SendFault.Stuck → ⊥) → O.stalls sink.new ≡ O.stalls sink.old }
{
    let text = request_bytes(alloc, place, request, kind, language)?;
    send(sink, &text)
}

/// Writes a response. The errors are those of `write_request`.
pub fn write_response<O: Sink>(
    alloc: Global,
    sink: &mut O,
    response: &Response,
) -> Result<(), SendFault>
    ensures written { OnOk result (Appends (O.written sink.old) (O.written sink.new) (spec.response_spelling response.now)) }
    ensures prefix { OnErr result (AppendsPrefix (O.written sink.old) (O.written sink.new) (spec.response_spelling response.now)) }
    ensures memory { IsErrOf result SendFault.Memory → Keeps (O.written sink.old) (O.written sink.new) }
    ensures beside { O.beside sink.new ≡ O.beside sink.old }
    ensures later { O.faults sink.old ≤ O.faults sink.new }
    ensures link { IsErrOf result SendFault.Link → Raised (O.faults sink.old) (O.faults sink.new) }
    ensures steady { (IsErrOf result SendFault.Link → ⊥) → O.faults sink.new ≡ O.faults sink.old }
    ensures stuck { IsErrOf result SendFault.Stuck → Raised (O.stalls sink.old) (O.stalls sink.new) }
    ensures flows { (IsErrOf result SendFault.Stuck → ⊥) → O.stalls sink.new ≡ O.stalls sink.old }
{
    let text = response_bytes(alloc, response)?;
    send(sink, &text)
}

// Puts the bytes of a message.
fn send<O: Sink>(sink: &mut O, text: &Bytes) -> Result<(), SendFault>
    ensures written { OnOk result (Appends (O.written sink.old) (O.written sink.new) text.now) }
    ensures prefix { OnErr result (AppendsPrefix (O.written sink.old) (O.written sink.new) text.now) }
    ensures memory { IsErrOf result SendFault.Memory → ⊥ }
    ensures beside { O.beside sink.new ≡ O.beside sink.old }
    ensures later { O.faults sink.old ≤ O.faults sink.new }
    ensures link { IsErrOf result SendFault.Link → Raised (O.faults sink.old) (O.faults sink.new) }
    ensures steady { (IsErrOf result SendFault.Link → ⊥) → O.faults sink.new ≡ O.faults sink.old }
    ensures stuck { IsErrOf result SendFault.Stuck → Raised (O.stalls sink.old) (O.stalls sink.new) }
    ensures flows { (IsErrOf result SendFault.Stuck → ⊥) → O.stalls sink.new ≡ O.stalls sink.old }
{
    match put_all(sink, text.as_slice()) {
        Ok(()) => Ok(()),
        Err(PutFault::Failed) => Err(SendFault::Link),
        Err(PutFault::Stuck) => Err(SendFault::Stuck),
    }
}

// The bytes of a request.
fn request_bytes(
    alloc: Global,
    place: &Place,
    request: &Request,
    kind: &str,
    language: bool,
) -> Result<Bytes, Memory>
    ensures { IfOk result (λ text. text ≡ spec.request_spelling place.now request.now kind.now language) }
{
    let mut text = Bytes::new(alloc);
    add_request_line(&mut text, request)?;
    add_host(alloc, &mut text, place)?;
    add_authorization(&mut text, &request.bearer)?;
    add_field(&mut text, "content-type", kind)?;
    add_line_if(&mut text, language, "content-language", "en")?;
    add_field(&mut text, "accept", "application/json")?;
    add_field(&mut text, "connection", "close")?;
    add_body(alloc, &mut text, request.body.as_slice())?;
    Ok(text)
}

// Adds the line of a request (RFC 9112, section 3).
fn add_request_line(text: &mut Bytes, request: &Request) -> Result<(), Memory>
    ensures { OnOk result (text.new ≡ text.old ++ spec.request_line request.now) }
{
    text.add(request.method.as_str().as_bytes())?;
    text.add(b" ")?;
    text.add(request.path.as_str().as_bytes())?;
    add_query(text, request.query.as_str())?;
    text.add(b" HTTP/1.1\r\n")?;
    Ok(())
}

// Adds a query that isn't empty, after its `?`.
fn add_query(text: &mut Bytes, query: &str) -> Result<(), Memory>
    ensures { OnOk result (text.new ≡ text.old ++ spec.query_part query.now) }
{
    if query.is_empty() {
        return Ok(());
    }
    text.add(b"?")?;
    text.add(query.as_bytes())
}

// Adds the field `host` (RFC 9110, section 7.2).
fn add_host(alloc: Global, text: &mut Bytes, place: &Place) -> Result<(), Memory>
    ensures { OnOk result (text.new ≡ text.old ++ spec.field_line (codes "host") (spec.place_text place.now)) }
{
    let host = place.host.as_str();
    let port = place.port;
    let value = format!(in alloc; "{host}:{port}")?;
    add_field(text, "host", value.as_str())
}

// Adds a field line (RFC 9112, section 5).
fn add_field(text: &mut Bytes, name: &str, value: &str) -> Result<(), Memory>
    ensures { OnOk result (text.new ≡ text.old ++ spec.field_line name.now value.now) }
{
    text.add(name.as_bytes())?;
    text.add(b": ")?;
    text.add(value.as_bytes())?;
    text.add(b"\r\n")
}

// Adds a field line where the condition holds.
fn add_line_if(text: &mut Bytes, condition: bool, name: &str, value: &str) -> Result<(), Memory>
    ensures { OnOk result (text.new ≡ text.old ++ spec.line_if condition name.now value.now) }
{
    if condition {
        return add_field(text, name, value);
    }
    Ok(())
}

// Adds the field `authorization`, where there is a value for it (RFC 9110, section 11.6.2).
fn add_authorization(text: &mut Bytes, value: &Option<Text>) -> Result<(), Memory>
    ensures { OnOk result (text.new ≡ text.old ++ spec.authorization value.now) }
{
    match value {
        Some(value) => add_field(text, "authorization", value.as_str()),
        None => Ok(()),
    }
}

// Adds the length of a body, the end of the head and the body.
fn add_body(alloc: Global, text: &mut Bytes, body: &[u8]) -> Result<(), Memory>
    ensures { OnOk result (text.new ≡ text.old ++ spec.length_and_body body.now) }
{
    let length = body.len();
    let value = format!(in alloc; "{length}")?;
    add_field(text, "content-length", value.as_str())?;
    text.add(b"\r\n")?;
    text.add(body)
}

// Adds the end of a head and a body. A response of status 204 has none and says no length (RFC 9110, section 8.6).
fn add_rest(alloc: Global, text: &mut Bytes, status: u16, body: &[u8]) -> Result<(), Memory>
    ensures { OnOk result (text.new ≡ text.old ++ spec.rest_of status body.now) }
{
    if status == 204 {
        return text.add(b"\r\n");
    }
    add_body(alloc, text, body)
}

// The bytes of a response.
fn response_bytes(alloc: Global, response: &Response) -> Result<Bytes, Memory>
    ensures { IfOk result (λ text. text ≡ spec.response_spelling response.now) }
{
    let mut text = Bytes::new(alloc);
    add_status_line(alloc, &mut text, response.status)?;
    add_fields(&mut text, response.headers.as_slice())?;
    add_line_if(&mut text, response.close, "connection", "close")?;
    add_rest(alloc, &mut text, response.status, response.body.as_slice())?;
    Ok(text)
}

// Adds the status line (RFC 9112, section 4).
fn add_status_line(alloc: Global, text: &mut Bytes, status: u16) -> Result<(), Memory>
    ensures { OnOk result (text.new ≡ text.old ++ spec.status_line status) }
{
    let phrase = phrase(status);
    let line = format!(in alloc; "HTTP/1.1 {status} {phrase}\r\n")?;
    text.add(line.as_bytes())
}

// The phrase of a status, and nothing for one without.
fn phrase(status: u16) -> &'static str
    ensures { result.now ≡ spec.phrase status }
{
    match StatusCode::from_u16(status) {
        Ok(code) => match code.canonical_reason() {
            Some(phrase) => phrase,
            None => "",
        },
        Err(_) => "",
    }
}

// Adds these field lines.
fn add_fields(text: &mut Bytes, headers: &[Header]) -> Result<(), Memory>
    ensures { OnOk result (text.new ≡ text.old ++ spec.field_lines headers.now) }
{
    for header in headers {
        add_field(text, header.name.as_str(), header.value.as_str())?;
    }
    Ok(())
}
