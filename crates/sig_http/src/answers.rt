ghost use Rattle.std.specs.Prelude.{◌≡◌, ◌∷◌, [], IfOk, Some, codes};
ghost use Rattle.serde_json.specs.Data.{string};
ghost use Rattle.serde_json.specs.Written.{compact_text};
ghost use Rattle.sig_http.specs.Answering as spec;

use crate::{Header, HttpFault, HttpRefusal, Response};
use sig_json::{Bytes, Items, Memory, Text, Value, canon};
use std::alloc::Global;

/// The response with which a server answers a request that can't be read, after which it closes the link. There is none
/// exactly for `Cut`, `Link` and `Memory`.
///
/// A 400 names the place that is wrong, `head`, `host` or `length`, as `description`. It has no `err`: what can't be read says
/// nothing of a token, and a transmitter must not take it for the end of one (RFC 8935, section 2.4). The others have no
/// body.
pub fn fault_of(alloc: Global, fault: &HttpFault) -> Result<Option<Response>, Memory>
    ensures { IfOk result (λ response. response ≡ spec.closing_of fault.now) }
{
    Ok(match fault {
        HttpFault::Head => Some(bad_request(alloc, b"{\"description\":\"head\"}")?),
        HttpFault::Host => Some(bad_request(alloc, b"{\"description\":\"host\"}")?),
        HttpFault::Length => Some(bad_request(alloc, b"{\"description\":\"length\"}")?),
        HttpFault::HeadLong => Some(closing(alloc, 431)?),
        HttpFault::BodyLong => Some(closing(alloc, 413)?),
        HttpFault::Coding => Some(closing(alloc, 415)?),
        HttpFault::Expect => Some(closing(alloc, 417)?),
        HttpFault::Cut | HttpFault::Link | HttpFault::Memory => None,
    })
}

// A closing response without a body.
fn closing(alloc: Global, status: u16) -> Result<Response, Memory>
    ensures { IfOk result (λ response. response ≡ spec.closing status) }
{
    let mut response = empty(alloc, status)?;
    response.close = true;
    Ok(response)
}

// A closing response of status 400 with this JSON body.
fn bad_request(alloc: Global, body: &[u8]) -> Result<Response, Memory>
    ensures { IfOk result (λ response. response ≡ spec.bad_request body.now) }
{
    let body = Bytes::of(alloc, body)?;
    let mut response = json(alloc, 400, body)?;
    response.close = true;
    Ok(response)
}

/// The response to a request that the routes refuse. It leaves the link open. For `Memory` there is none, and the call is
/// out of memory too.
pub fn refusal_of(alloc: Global, refusal: &HttpRefusal) -> Result<Response, Memory>
    ensures { IfOk result (λ response. Some response ≡ spec.refused_with refusal.now) }
{
    match refusal {
        HttpRefusal::Path => empty(alloc, 404),
        HttpRefusal::Method { allow } => saying(alloc, 405, "allow", allow.as_str()),
        HttpRefusal::Auth => saying(alloc, 401, "www-authenticate", "Bearer"),
        HttpRefusal::Bad(place) => bad_at(alloc, place.as_str()),
        HttpRefusal::Memory => Err(Memory),
    }
}

// A response without a body that has this field too.
fn saying(alloc: Global, status: u16, name: &str, value: &str) -> Result<Response, Memory>
    ensures { IfOk result (λ response. response ≡ spec.saying status name.now value.now) }
{
    let mut headers = Vec::new(alloc);
    headers.push(header(alloc, name, value)?)?;
    headers.push(no_store(alloc)?)?;
    Ok(Response {
        status,
        headers: Items::of(headers),
        close: false,
        body: Bytes::new(alloc),
    })
}

// A response of status 400 that names a place.
fn bad_at(alloc: Global, place: &str) -> Result<Response, Memory>
    ensures { IfOk result (λ response. response ≡ spec.bad_at place.now) }
{
    let body = bad_body(alloc, place)?;
    json(alloc, 400, body)
}

// The JSON body that names a place.
fn bad_body(alloc: Global, place: &str) -> Result<Bytes, Memory>
    ensures { IfOk result (λ body. body ≡ spec.bad_body (compact_text (string place.now))) }
{
    let place = Value::String(String::from_str(alloc, place)?);
    let place = canon(alloc, &place)?;
    around(alloc, place.as_str().as_bytes())
}

// The body that names a place by its JSON text.
fn around(alloc: Global, place: &[u8]) -> Result<Bytes, Memory>
    ensures { IfOk result (λ body. body ≡ spec.bad_body place.now) }
{
    let mut body = Bytes::of(alloc, b"{\"description\":")?;
    body.add(place)?;
    body.add(b",\"err\":\"invalid_request\"}")?;
    Ok(body)
}

/// A response without a body, which no cache may keep (RFC 9111, section 5.2.2.5). It leaves the link open. Out of memory is
/// the only error.
pub fn empty(alloc: Global, status: u16) -> Result<Response, Memory>
    ensures { IfOk result (λ response. response ≡ spec.empty status) }
{
    let mut headers = Vec::new(alloc);
    headers.push(no_store(alloc)?)?;
    Ok(Response {
        status,
        headers: Items::of(headers),
        close: false,
        body: Bytes::new(alloc),
    })
}

/// A response with this body in JSON (RFC 8259, section 11), which no cache may keep. It leaves the link open. Out of memory is
/// the only error.
pub fn json(alloc: Global, status: u16, body: Bytes) -> Result<Response, Memory>
    ensures { IfOk result (λ response. response ≡ spec.json status body) }
{
    let mut headers = Vec::new(alloc);
    headers.push(header(alloc, "content-type", "application/json")?)?;
    headers.push(no_store(alloc)?)?;
    Ok(Response {
        status,
        headers: Items::of(headers),
        close: false,
        body,
    })
}

/// The field by which no cache may keep a response (RFC 9111, section 5.2.2.5). Out of memory is the only error.
pub fn no_store(alloc: Global) -> Result<Header, Memory>
    ensures { IfOk result (λ field. field ≡ spec.no_store) }
{
    header(alloc, "cache-control", "no-store")
}

/// A field of this name, with this value. Out of memory is the only error.
pub fn header(alloc: Global, name: &str, value: &str) -> Result<Header, Memory>
    ensures { IfOk result (λ field. field ≡ record { name = name.now; value = value.now }) }
{
    Ok(Header {
        name: Text::of(alloc, name)?,
        value: Text::of(alloc, value)?,
    })
}
