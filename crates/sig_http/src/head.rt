ghost use Rattle.std.specs.Prelude.{◌≡◌, ◌≤◌, [], None, IfOk, IfErr, IfSome, IsUtf8, length, option_map};
ghost use Rattle.sig_json.specs.declared.limits.TheConstants.{HEADER_FIELDS};
ghost use Rattle.httparse.specs.Grammar.{RequestHead, ResponseHead};
ghost use Rattle.httparse.specs.Spans.{IsRequestAt, IsResponseAt, span_bytes};
ghost use Rattle.sig_http.specs.Fields.{fields_at};
ghost use Rattle.sig_http.specs.Message as spec;
ghost use Rattle.sig_http.specs.Heads as heads;

use crate::fields::{closes, first_value, part};
use crate::framing::{Framing, request_fault, request_framing, response_fault, response_framing};
use crate::target::{path_of, split_target};
use crate::values::after_bearer;
use crate::{HttpFault, Request, Response};
use http::Method;
use httparse::Status;
use httparse::spans::{
    EMPTY_HEADER_SPAN, HeaderSpan, RequestSpans, ResponseSpans, Span, parse_request, parse_response,
};
use sig_json::limits::HEADER_FIELDS;
use sig_json::{Bytes, Items, Memory, Text};
use std::alloc::Global;

/// The request that a whole head section begins, without its body, and how that ends.
pub fn request_head(alloc: Global, section: &[u8]) -> Result<(Request, Framing), HttpFault>
    ensures opens { IfOk result (λ opening. heads.Opens spec.FindsRequest spec.requests section.now opening.0 opening.1) }
    ensures refused { IfErr result (λ fault. heads.RefusesHead spec.FindsRequest spec.requests section.now fault) }
{
    let mut headers = [EMPTY_HEADER_SPAN; HEADER_FIELDS];
    let Some(spans) = find_request(section, &mut headers) else {
        return Err(HttpFault::Head);
    };
    let fields = headers.as_slice().split_at(spans.headers).0;
    let target = part(section, spans.path);
    if let Some(fault) = request_fault(spans.version, target, section, fields) {
        return Err(fault);
    }
    let request = request_of(alloc, section, &spans, fields)?;
    Ok((request, request_framing(section, fields)))
}

// The head that a section begins with, where it has one whose fields find room.
fn find_request(section: &[u8], headers: &mut [HeaderSpan; HEADER_FIELDS]) -> Option<RequestSpans>
    ensures found { IfSome result (λ spans. (head : RequestHead) × IsRequestAt section.now headers.new spans head × (length head.fields ≤ HEADER_FIELDS)) }
    ensures within { IfSome result (λ spans. spans.headers ≤ HEADER_FIELDS) }
    ensures none { result ≡ None → spec.FindsRequest section.now None }
{
    match parse_request(section, headers) {
        Ok(Status::Complete(spans)) => Some(spans),
        _ => None,
    }
}

// The request of a head, without its body.
fn request_of(
    alloc: Global,
    section: &[u8],
    spans: &RequestSpans,
    headers: &[HeaderSpan],
) -> Result<Request, Memory>
    requires { IsUtf8 (span_bytes section.now spans.now.path) }
    ensures { IfOk result (λ request. request ≡ spec.request_from (span_bytes section.now spans.now.method) (span_bytes section.now spans.now.path) spans.now.version (fields_at section.now headers.now) []) }
{
    let (target, query) = split_target(part(section, spans.path));
    Ok(Request {
        method: method_of(alloc, part(section, spans.method))?,
        path: path_of(alloc, target)?,
        query: Text::of(alloc, query)?,
        bearer: bearer_of(alloc, first_value(section, headers, "authorization"))?,
        close: is_closing(spans.version, section, headers),
        body: Bytes::new(alloc),
    })
}

// Whether the link closes after a message.
fn is_closing(minor: u8, section: &[u8], headers: &[HeaderSpan]) -> bool
    ensures { result ≡ spec.is_closing minor (fields_at section.now headers.now) }
{
    minor == 0 || closes(section, headers)
}

// The text of a method. That of a head is a token, so out of memory is the only error.
fn method_of(alloc: Global, bytes: &[u8]) -> Result<Text, Memory>
    ensures { IfOk result (λ method. method ≡ bytes.now) }
{
    match Method::from_bytes(alloc, bytes) {
        Ok(method) => Text::of(alloc, method.as_str()),
        Err(_) => Err(Memory),
    }
}

// The bearer that the value of a field `authorization` names, where there is one in UTF-8.
fn bearer_of(alloc: Global, value: Option<&[u8]>) -> Result<Option<Text>, Memory>
    ensures { IfOk result (λ bearer. bearer ≡ spec.bearer_of (option_map (λ v. v.now) value.entry)) }
{
    let Some(value) = value else {
        return Ok(None);
    };
    let Some(bearer) = after_bearer(value) else {
        return Ok(None);
    };
    text_of(alloc, bearer)
}

// The text of bytes, where they are UTF-8.
#[tactic(auto, using(crate::proofs::TextLemmas::text_of_utf8, crate::proofs::TextLemmas::text_of_none))]
fn text_of(alloc: Global, bytes: &[u8]) -> Result<Option<Text>, Memory>
    ensures { IfOk result (λ text. text ≡ spec.text_of bytes.now) }
{
    match str::from_utf8(bytes) {
        Ok(text) => Ok(Some(Text::of(alloc, text)?)),
        Err(_) => Ok(None),
    }
}

/// The response that a whole head section begins, without its body, and how that ends.
pub fn response_head(alloc: Global, section: &[u8]) -> Result<(Response, Framing), HttpFault>
    ensures opens { IfOk result (λ opening. heads.Opens spec.FindsResponse spec.responses section.now opening.0 opening.1) }
    ensures refused { IfErr result (λ fault. heads.RefusesHead spec.FindsResponse spec.responses section.now fault) }
{
    let mut headers = [EMPTY_HEADER_SPAN; HEADER_FIELDS];
    let Some(spans) = find_response(section, &mut headers) else {
        return Err(HttpFault::Head);
    };
    let fields = headers.as_slice().split_at(spans.headers).0;
    if let Some(fault) = response_fault(spans.code, section, fields) {
        return Err(fault);
    }
    let response = Response {
        status: spans.code,
        headers: Items::of(Vec::new(alloc)),
        close: is_closing(spans.version, section, fields),
        body: Bytes::new(alloc),
    };
    Ok((response, response_framing(spans.code, section, fields)))
}

// The head that a section begins with, where it has one whose fields find room.
fn find_response(section: &[u8], headers: &mut [HeaderSpan; HEADER_FIELDS]) -> Option<ResponseSpans>
    ensures found { IfSome result (λ spans. (head : ResponseHead) × IsResponseAt section.now headers.new spans head × (length head.fields ≤ HEADER_FIELDS)) }
    ensures within { IfSome result (λ spans. spans.headers ≤ HEADER_FIELDS) }
    ensures none { result ≡ None → spec.FindsResponse section.now None }
{
    match parse_response(section, headers) {
        Ok(Status::Complete(spans)) => Some(spans),
        _ => None,
    }
}
