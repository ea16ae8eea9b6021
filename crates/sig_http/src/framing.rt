ghost use Rattle.std.specs.Prelude.{◌≡◌};
ghost use Rattle.sig_http.specs.Fields.{fields_at};
ghost use Rattle.sig_http.specs.Framing as spec;

use crate::HttpFault;
use crate::fields::{all_say, count_named, first_value, lengths_are};
use crate::target::has_fragment;
use crate::values::number_of;
use httparse::spans::HeaderSpan;
use sig_json::limits::{REQUEST_BODY_BYTES, RESPONSE_BODY_BYTES};

/// How the body of a message ends (RFC 9112, section 6.3).
#[derive(Clone, Copy, PartialEq, Eq)]
pub enum Framing {
    /// After so many bytes.
    Length(usize),
    /// After its last chunk and the trailer section.
    Chunks,
    /// Where the source ends.
    End,
}

/// The fault that the version of a request, HTTP/1 and this number, its target and its fields decide: the first of those
/// that there are.
pub fn request_fault(
    minor: u8,
    target: &[u8],
    bytes: &[u8],
    headers: &[HeaderSpan],
) -> Option<HttpFault>
    ensures { result ≡ spec.request_fault minor target.now (fields_at bytes.now headers.now) }
{
    if has_fragment(target) {
        return Some(HttpFault::Head);
    }
    if !is_hosted(minor, bytes, headers) {
        return Some(HttpFault::Host);
    }
    if minor > 0 && count_named(bytes, headers, "expect") > 0 {
        return Some(HttpFault::Expect);
    }
    if !all_say(bytes, headers, "content-encoding", "identity") {
        return Some(HttpFault::Coding);
    }
    framing_fault(
        is_framed(bytes, headers),
        REQUEST_BODY_BYTES,
        request_framing(bytes, headers),
    )
}

// Whether a request says its host once, or is of HTTP/1.0 and says none.
fn is_hosted(minor: u8, bytes: &[u8], headers: &[HeaderSpan]) -> bool
    ensures { result ≡ spec.is_hosted minor (fields_at bytes.now headers.now) }
{
    match count_named(bytes, headers, "host") {
        0 => minor == 0,
        count => count == 1,
    }
}

/// The fault that the status and the fields of a response decide: the first of those that there are.
pub fn response_fault(status: u16, bytes: &[u8], headers: &[HeaderSpan]) -> Option<HttpFault>
    ensures { result ≡ spec.response_fault status (fields_at bytes.now headers.now) }
{
    framing_fault(
        is_framed(bytes, headers),
        RESPONSE_BODY_BYTES,
        response_framing(status, bytes, headers),
    )
}

// `Length` where the framing isn't said, else `BodyLong` where it passes the limit.
fn framing_fault(framed: bool, limit: usize, framing: Framing) -> Option<HttpFault>
    ensures { result ≡ spec.framing_fault framed limit framing }
{
    if !framed {
        return Some(HttpFault::Length);
    }
    match framing {
        Framing::Length(length) if length > limit => Some(HttpFault::BodyLong),
        _ => None,
    }
}

// Whether the fields say one way in which the body ends.
fn is_framed(bytes: &[u8], headers: &[HeaderSpan]) -> bool
    ensures { result ≡ spec.is_framed (fields_at bytes.now headers.now) }
{
    let first = length_field(bytes, headers);
    if !lengths_are(bytes, headers, first) {
        return false;
    }
    let codings = count_named(bytes, headers, "transfer-encoding");
    let alone = codings == 1
        && all_say(bytes, headers, "transfer-encoding", "chunked")
        && count_named(bytes, headers, "content-length") == 0;
    codings == 0 || alone
}

// The value of the first field `content-length`, and nothing where there is none.
fn length_field<'b>(bytes: &'b [u8], headers: &[HeaderSpan]) -> &'b [u8]
    ensures { result.now ≡ spec.length_field (fields_at bytes.now headers.now) }
{
    first_value(bytes, headers, "content-length").unwrap_or(b"")
}

// The number of the first field `content-length`, and 0 where there is none.
fn length_in(bytes: &[u8], headers: &[HeaderSpan]) -> usize
    ensures { result ≡ spec.length_in (fields_at bytes.now headers.now) }
{
    number_of(length_field(bytes, headers))
}

/// How the body of a request ends: one without a length has no body.
pub fn request_framing(bytes: &[u8], headers: &[HeaderSpan]) -> Framing
    ensures { result ≡ spec.request_framing (fields_at bytes.now headers.now) }
{
    if count_named(bytes, headers, "transfer-encoding") > 0 {
        return Framing::Chunks;
    }
    Framing::Length(length_in(bytes, headers))
}

// Whether a response of this status has no body (RFC 9112, section 6.3).
fn is_bodiless(status: u16) -> bool
    ensures { result ≡ spec.is_bodiless status }
{
    status == 204 || status == 304 || is_informational(status)
}

// Whether a status is 1xx (RFC 9110, section 15.2).
fn is_informational(status: u16) -> bool
    ensures { result ≡ spec.is_informational status }
{
    status >= 100 && status < 200
}

/// How the body of a response ends: one of status 1xx, 204 or 304 has none.
pub fn response_framing(status: u16, bytes: &[u8], headers: &[HeaderSpan]) -> Framing
    ensures { result ≡ spec.response_framing status (fields_at bytes.now headers.now) }
{
    if is_bodiless(status) {
        return Framing::Length(0);
    }
    if count_named(bytes, headers, "transfer-encoding") > 0 {
        return Framing::Chunks;
    }
    if count_named(bytes, headers, "content-length") > 0 {
        return Framing::Length(length_in(bytes, headers));
    }
    Framing::End
}
