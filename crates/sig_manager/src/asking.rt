//! The request of each step, without a bearer.

ghost use Rattle.std.specs.Prelude.{◌≡◌, IfOk, [], codes, false};
ghost use Rattle.serde_json.specs.View.{view};
ghost use Rattle.serde_json.specs.Written.{compact_text, has_float};
ghost use Rattle.sig_manager.specs.Asking as spec;

use crate::Step;
use crate::writing::{replaced_json, status_json, want_json};
use form_urlencoded::Serializer;
use sig_event::Status;
use sig_http::Request;
use sig_json::{Bytes, Memory, Text, Value};
use sig_terms::Want;
use std::alloc::Global;

/// Asks for the streams of the client.
pub fn list_request(alloc: Global) -> Result<Request, Memory>
    ensures { IfOk result (λ r. r ≡ spec.list_request) }
{
    let body = Bytes::new(alloc);
    request(alloc, "GET", "/ssf/stream", Text::of(alloc, "")?, body)
}

/// The request of a step.
pub fn request_of(alloc: Global, step: &Step) -> Result<Request, Memory>
    ensures { IfOk result (λ r. r ≡ spec.request_of step.now) }
{
    match step {
        Step::Status { stream, .. } => named(alloc, "GET", "/ssf/status", stream.as_str()),
        Step::Delete { stream } => named(alloc, "DELETE", "/ssf/stream", stream.as_str()),
        Step::Replace { stream, want } => replace(alloc, stream, want),
        Step::Create { want, .. } => create(alloc, want),
        Step::SetStatus { stream, status } => set_status(alloc, stream, *status),
    }
}

#[tactic(auto, using(crate::proofs::Whole::replaced_whole))]
fn replace(alloc: Global, stream: &Text, want: &Want) -> Result<Request, Memory>
    ensures { IfOk result (λ r. r
        ≡ spec.request (codes "PUT") spec.stream_path [] (compact_text (spec.replaced_data stream.now want.now))) }
{
    let body = body_of(alloc, replaced_json(alloc, stream, want)?)?;
    request(alloc, "PUT", "/ssf/stream", Text::of(alloc, "")?, body)
}

#[tactic(auto, using(crate::proofs::Whole::want_whole))]
fn create(alloc: Global, want: &Want) -> Result<Request, Memory>
    ensures { IfOk result (λ r. r ≡ spec.request (codes "POST") spec.stream_path [] (compact_text (spec.want_data want.now))) }
{
    let body = body_of(alloc, want_json(alloc, want)?)?;
    request(alloc, "POST", "/ssf/stream", Text::of(alloc, "")?, body)
}

fn set_status(alloc: Global, stream: &Text, status: Status) -> Result<Request, Memory>
    ensures { IfOk result (λ r. r
        ≡ spec.request (codes "POST") spec.status_path [] (compact_text (spec.status_data stream.now status))) }
{
    let body = body_of(alloc, status_json(alloc, stream, status)?)?;
    request(alloc, "POST", "/ssf/status", Text::of(alloc, "")?, body)
}

// A request whose query names a stream.
fn named(alloc: Global, method: &str, path: &str, stream: &str) -> Result<Request, Memory>
    ensures { IfOk result (λ r. r ≡ spec.request method.now path.now (spec.query_of stream.now) []) }
{
    let query = query_of(alloc, stream)?;
    let body = Bytes::new(alloc);
    request(alloc, method, path, query, body)
}

fn query_of(alloc: Global, stream: &str) -> Result<Text, Memory>
    ensures { IfOk result (λ query. query ≡ spec.query_of stream.now) }
{
    let mut form = Serializer::new(String::new(alloc));
    form.append_pair("stream_id", stream)?;
    Ok(Text::from_string(form.finish()))
}

fn request(
    alloc: Global,
    method: &str,
    path: &str,
    query: Text,
    body: Bytes,
) -> Result<Request, Memory>
    ensures { IfOk result (λ r. r ≡ spec.request method.now path.now query body) }
{
    let method = Text::of(alloc, method)?;
    let path = Text::of(alloc, path)?;
    Ok(Request {
        method,
        path,
        query,
        bearer: None,
        close: true,
        body,
    })
}

// The canonical text of a value in which no fraction stands.
fn body_of(alloc: Global, value: Value) -> Result<Bytes, Memory>
    requires { has_float (view value) ≡ false }
    ensures { IfOk result (λ body. body ≡ compact_text (view value)) }
{
    let text = value.to_string(alloc)?;
    Ok(Bytes::from_vec(text.into_bytes()))
}
