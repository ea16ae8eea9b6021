//! What an operator publishes.

ghost use Rattle.std.specs.Prelude.{◌≡◌, IfOk, option_map};
ghost use Rattle.serde_json.specs.View.{members_view, view};
ghost use Rattle.uuid.specs.Text.{hyphenated_text, lower, parsed};
ghost use Rattle.sig_json.specs.Answers.{Answers};
ghost use Rattle.sig_stream.specs.Publications as spec;

use crate::PublishFault;
use serde_json::Map;
use sig_event::{Event, EventFault, News};
use sig_json::{Memory, Text, Value, text_of};
use sig_subject::{Subject, SubjectFault};
use sig_terms::{Call, is_published_uri};
use std::alloc::Global;
use uuid::Uuid;

/// The publication of a body, which is a `Call::Publish`; unknown members are passed over.
///
/// `Member` names the first that is missing or wrong, in the order `body`, `publish_id`, `sub_id`, `events`: the body is
/// an object; the publication's name is a text that spells a UUID (RFC 9562, section 4), which is kept with hyphens and
/// in lower case; the subject is one (RFC 9493); and `events` is an object with exactly one member, whose name is the URI
/// of one of the 22 types that transmitters publish, and whose value is a payload of that type about that subject.
#[tactic(auto, unfolding(crate::specs::Publications::publish_of))]
pub fn publish_of(alloc: Global, body: &Value) -> Result<Call, PublishFault>
    ensures { Answers PublishFault.Memory result (spec.publish_of (view body.now)) }
{
    if !body.is_object() {
        return Err(PublishFault::Member(Text::of(alloc, "body")?));
    }
    let Some(id) = publish_id(alloc, body)? else {
        return Err(PublishFault::Member(Text::of(alloc, "publish_id")?));
    };
    let Some(subject) = subject_in(alloc, body)? else {
        return Err(PublishFault::Member(Text::of(alloc, "sub_id")?));
    };
    let Some(event) = event_in(alloc, body, &subject)? else {
        return Err(PublishFault::Member(Text::of(alloc, "events")?));
    };
    let news = News { subject, event };
    Ok(Call::Publish { id, news })
}

fn publish_id(alloc: Global, body: &Value) -> Result<Option<Text>, Memory>
    ensures { IfOk result (λ id. id ≡ spec.publish_id_of (view body.now)) }
{
    match text_of(body, "publish_id") {
        Some(text) => uuid_text(alloc, uuid_in(text)),
        None => Ok(None),
    }
}

fn uuid_in(text: &str) -> Option<Uuid>
    ensures { result ≡ parsed text.now }
{
    match Uuid::parse_str(text) {
        Ok(id) => Some(id),
        Err(_) => None,
    }
}

// With hyphens and in lower case.
fn uuid_text(alloc: Global, id: Option<Uuid>) -> Result<Option<Text>, Memory>
    ensures { IfOk result (λ text. text ≡ option_map (hyphenated_text lower) id) }
{
    match id {
        Some(id) => {
            let mut buffer = Uuid::encode_buffer();
            let text = Text::of(alloc, id.hyphenated().encode_lower(&mut buffer))?;
            Ok(Some(text))
        }
        None => Ok(None),
    }
}

fn subject_in(alloc: Global, body: &Value) -> Result<Option<Subject>, Memory>
    ensures { IfOk result (λ s. s ≡ spec.subject_in (view body.now)) }
{
    match body.get("sub_id") {
        Some(named) => subject_at(alloc, named),
        None => Ok(None),
    }
}

fn subject_at(alloc: Global, named: &Value) -> Result<Option<Subject>, Memory>
    ensures { IfOk result (λ s. s ≡ spec.subject_at (view named.now)) }
{
    match sig_subject::from_json(alloc, named) {
        Ok(subject) => Ok(Some(subject)),
        Err(SubjectFault::Memory) => Err(Memory),
        Err(_) => Ok(None),
    }
}

fn event_in(alloc: Global, body: &Value, subject: &Subject) -> Result<Option<Event>, Memory>
    ensures { IfOk result (λ e. e ≡ spec.event_in subject.now (view body.now)) }
{
    let Some(events) = body.get("events") else {
        return Ok(None);
    };
    match events.as_object() {
        Some(events) => one_event(alloc, events, subject),
        None => Ok(None),
    }
}

// The event of an object with exactly one member.
fn one_event(
    alloc: Global,
    events: &Map<String, Value>,
    subject: &Subject,
) -> Result<Option<Event>, Memory>
    ensures { IfOk result (λ e. e ≡ spec.one_event subject.now (members_view events.now.entries)) }
{
    let mut members = events.iter();
    let Some((uri, payload)) = members.next() else {
        return Ok(None);
    };
    if members.next().is_some() {
        return Ok(None);
    }
    published(alloc, uri.as_str(), payload, subject)
}

// The event of a type that transmitters publish.
fn published(
    alloc: Global,
    uri: &str,
    payload: &Value,
    subject: &Subject,
) -> Result<Option<Event>, Memory>
    ensures { IfOk result (λ e. e ≡ spec.published subject.now uri.now (view payload.now)) }
{
    if !is_published_uri(uri) {
        return Ok(None);
    }
    match sig_event::from_json(alloc, uri, payload, subject) {
        Ok(event) => Ok(Some(event)),
        Err(EventFault::Memory) => Err(Memory),
        Err(_) => Ok(None),
    }
}
