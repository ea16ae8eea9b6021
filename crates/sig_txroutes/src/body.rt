//! What the bodies of requests say. `Bad` names the first member that is missing or wrong.

ghost use Rattle.std.specs.Prelude.{◌≡◌, IfOk, codes, option_and_then};
ghost use Rattle.serde_json.specs.View.{view};
ghost use Rattle.sig_json.specs.Answers.{Answers, result_map};
ghost use Rattle.sig_json.specs.Json.{member_of};
ghost use Rattle.sig_txroutes.specs.Bodies as spec;

use sig_event::Status;
use sig_http::HttpRefusal;
use sig_json::{JsonFault, Memory, Text, Value, read, text_of, value_named};
use sig_stream::{PublishFault, WantFault, publish_of, want_of};
use sig_subject::{Subject, SubjectFault, from_json};
use sig_terms::{Call, Want};
use std::alloc::Global;

/// The object that a body spells; `Bad` at `body` exactly where it spells none.
pub fn object_in(alloc: Global, bytes: &[u8]) -> Result<Value, HttpRefusal>
    ensures { Answers HttpRefusal.Memory (result_map view result) (spec.object_in bytes.now) }
{
    match read(alloc, bytes) {
        Ok(value) if value.is_object() => Ok(value),
        Ok(_) | Err(JsonFault::NotJson) => Err(HttpRefusal::Bad(Text::of(alloc, "body")?)),
        Err(JsonFault::Memory) => Err(HttpRefusal::Memory),
    }
}

/// A member that has to be there and be a text.
pub fn text_in(alloc: Global, body: &Value, name: &str) -> Result<Text, HttpRefusal>
    ensures { Answers HttpRefusal.Memory result (spec.text_in name.now (view body.now)) }
{
    match text_of(body, name) {
        Some(text) => Ok(Text::of(alloc, text)?),
        None => Err(HttpRefusal::Bad(Text::of(alloc, name)?)),
    }
}

/// A member that is a text where it is there; one of another kind is wrong.
pub fn optional_text(alloc: Global, body: &Value, name: &str) -> Result<Option<Text>, HttpRefusal>
    ensures { Answers HttpRefusal.Memory result (spec.optional_text name.now (view body.now)) }
{
    match body.get(name) {
        Some(value) => Ok(Some(text_at(alloc, value, name)?)),
        None => Ok(None),
    }
}

fn text_at(alloc: Global, value: &Value, name: &str) -> Result<Text, HttpRefusal>
    ensures { Answers HttpRefusal.Memory result (spec.text_at name.now (view value.now)) }
{
    match value.as_str() {
        Some(text) => Ok(Text::of(alloc, text)?),
        None => Err(HttpRefusal::Bad(Text::of(alloc, name)?)),
    }
}

/// The name of the stream.
pub fn stream_in(alloc: Global, body: &Value) -> Result<Text, HttpRefusal>
    ensures { Answers HttpRefusal.Memory result (spec.stream_in (view body.now)) }
{
    text_in(alloc, body, "stream_id")
}

/// The subject (RFC 9493, section 3).
pub fn subject_in(alloc: Global, body: &Value) -> Result<Subject, HttpRefusal>
    ensures { Answers HttpRefusal.Memory result (spec.subject_in (view body.now)) }
{
    match subject_member(alloc, body)? {
        Some(subject) => Ok(subject),
        None => Err(HttpRefusal::Bad(Text::of(alloc, "subject")?)),
    }
}

fn subject_member(alloc: Global, body: &Value) -> Result<Option<Subject>, Memory>
    ensures { IfOk result (λ s. s ≡ option_and_then spec.subject_at (member_of (codes "subject") (view body.now))) }
{
    match body.get("subject") {
        Some(value) => subject_at(alloc, value),
        None => Ok(None),
    }
}

fn subject_at(alloc: Global, value: &Value) -> Result<Option<Subject>, Memory>
    ensures { IfOk result (λ s. s ≡ spec.subject_at (view value.now)) }
{
    match from_json(alloc, value) {
        Ok(subject) => Ok(Some(subject)),
        Err(SubjectFault::Memory) => Err(Memory),
        Err(_) => Ok(None),
    }
}

/// What is wanted of a stream (OpenID Shared Signals Framework 1.0, section 8.1.1). `Bad` names the member that `want_of`
/// refuses: that of `Member`, `method`, or `endpoint_url`.
pub fn want_in(alloc: Global, body: &Value, gateway: bool) -> Result<Want, HttpRefusal>
    ensures { Answers HttpRefusal.Memory result (spec.want_in gateway (view body.now)) }
{
    match want_of(alloc, body, gateway) {
        Ok(want) => Ok(want),
        Err(WantFault::Member(name)) => Err(HttpRefusal::Bad(name)),
        Err(WantFault::Method) => Err(HttpRefusal::Bad(Text::of(alloc, "method")?)),
        Err(WantFault::Endpoint) => Err(HttpRefusal::Bad(Text::of(alloc, "endpoint_url")?)),
        Err(WantFault::Memory) => Err(HttpRefusal::Memory),
    }
}

/// What is published.
pub fn publication_in(alloc: Global, body: &Value) -> Result<Call, HttpRefusal>
    ensures { Answers HttpRefusal.Memory result (spec.publication_in (view body.now)) }
{
    match publish_of(alloc, body) {
        Ok(call) => Ok(call),
        Err(PublishFault::Member(name)) => Err(HttpRefusal::Bad(name)),
        Err(PublishFault::Memory) => Err(HttpRefusal::Memory),
    }
}

/// The status to which a stream is set, and why (OpenID Shared Signals Framework 1.0, section 8.1.2.2).
#[derive(Drop)]
pub struct StatusSaid {
    pub stream: Text,
    pub status: Status,
    pub reason: Option<Text>,
}

/// The status that is said; `reason`, `status` and `stream_id` are read in this order.
pub fn status_said(alloc: Global, body: &Value) -> Result<StatusSaid, HttpRefusal>
    ensures { Answers HttpRefusal.Memory result (spec.status_said (view body.now)) }
{
    let reason = optional_text(alloc, body, "reason")?;
    let status = status_in(alloc, body)?;
    let stream = stream_in(alloc, body)?;
    Ok(StatusSaid {
        stream,
        status,
        reason,
    })
}

fn status_in(alloc: Global, body: &Value) -> Result<Status, HttpRefusal>
    ensures { Answers HttpRefusal.Memory result (spec.status_in (view body.now)) }
{
    match text_of(body, "status").and_then(|text| value_named::<Status>(text)) {
        Some(status) => Ok(status),
        None => Err(HttpRefusal::Bad(Text::of(alloc, "status")?)),
    }
}
