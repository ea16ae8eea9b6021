//! Subjects and events, as fields: the JSON text that is written of each.

ghost use Rattle.std.specs.Prelude.{◌≡◌, ◌&&◌, IfOk, not, bytes_eq, option_map};
ghost use Rattle.serde_json.specs.View.{view};
ghost use Rattle.serde_json.specs.Written.{compact_text, has_float};
ghost use Rattle.sig_json.specs.Json.{json_of};
ghost use Rattle.sig_fields.specs.Kinds as kinds;
ghost use Rattle.sig_fields.specs.Reading.{Takes, ruled};
ghost use Rattle.sig_entry.specs.Parts as parts;

use sig_event::{Event, EventFault, News, event_text};
use sig_fields::{Field, PartFault, Reading, TextField, put_sized};
use sig_json::{JsonFault, Memory, Text, Value, canon_or_null, read};
use sig_subject::{Subject, SubjectFault};
use sig_terms::is_published_uri;
use std::alloc::Global;

/// A subject, as the JSON text that is written of it.
pub struct SubjectField;

impl Field for SubjectField {
    type Value = Subject;

    ghost spelled = { parts.subject_bytes };

    ghost read = { parts.subject };

    fn put(alloc: Global, value: &Subject, out: &mut Vec<u8>) -> Result<(), Memory> {
        let text = subject_text(alloc, value)?;
        TextField::put(alloc, &text, out)
    }

    fn take(alloc: Global, bytes: &mut Reading<'_>) -> Result<Subject, PartFault> {
        let begun = bytes.rest();
        let text = bytes.take_str()?;
        let subject = subject_in(alloc, text)?;
        bytes.accept(begun, subject)
    }
}

// The JSON text of a subject.
fn subject_text(alloc: Global, subject: &Subject) -> Result<Text, Memory>
    ensures { IfOk result (λ t. t ≡ parts.subject_written subject.now) }
{
    let value = sig_subject::to_json(alloc, subject)?;
    canon_or_null(alloc, &value)
}

// The subject that a text spells, where it is the text that is written of it.
fn subject_in(alloc: Global, text: &str) -> Result<Option<Subject>, Memory>
    ensures { IfOk result (λ s. s ≡ parts.subject_in text.now) }
{
    let Some(value) = value_in(alloc, text)? else {
        return Ok(None);
    };
    match subject_at(alloc, &value)? {
        Some(subject) => subject_so(alloc, subject, text),
        None => Ok(None),
    }
}

// The subject, where this is the text that is written of it.
fn subject_so(alloc: Global, subject: Subject, text: &str) -> Result<Option<Subject>, Memory>
    ensures { IfOk result (λ s. s ≡ parts.subject_so text.now subject) }
{
    let written = subject_text(alloc, &subject)?;
    if written.as_str() == text {
        return Ok(Some(subject));
    }
    Ok(None)
}

fn value_in(alloc: Global, text: &str) -> Result<Option<Value>, Memory>
    ensures { IfOk result (λ v. option_map view v ≡ json_of text.now) }
{
    match read(alloc, text.as_bytes()) {
        Ok(value) => Ok(Some(value)),
        Err(JsonFault::NotJson) => Ok(None),
        Err(JsonFault::Memory) => Err(Memory),
    }
}

fn subject_at(alloc: Global, value: &Value) -> Result<Option<Subject>, Memory>
    ensures { IfOk result (λ s. s ≡ parts.subject_at (view value.now)) }
{
    match sig_subject::from_json(alloc, value) {
        Ok(subject) => Ok(Some(subject)),
        Err(SubjectFault::Memory) => Err(Memory),
        Err(_) => Ok(None),
    }
}

/// News: the subject, the URI of the event, and the JSON text that is written of its payload.
pub struct NewsField;

impl Field for NewsField {
    type Value = News;

    ghost spelled = { parts.news_bytes };

    ghost read = { parts.told_news };

    fn put(alloc: Global, value: &News, out: &mut Vec<u8>) -> Result<(), Memory> {
        SubjectField::put(alloc, &value.subject, out)?;
        put_sized(out, value.event.uri().as_bytes())?;
        let payload = event_text(alloc, &value.event)?;
        TextField::put(alloc, &payload, out)
    }

    fn take(alloc: Global, bytes: &mut Reading<'_>) -> Result<News, PartFault> {
        let subject = SubjectField::take(alloc, bytes)?;
        let uri = take_uri(alloc, bytes)?;
        let event = take_event(alloc, bytes, &subject, &uri)?;
        Ok(News { subject, event })
    }
}

/// What a token tells: news of any type, spelled as those that are published.
pub struct ToldField;

impl Field for ToldField {
    type Value = News;

    ghost spelled = { parts.news_bytes };

    ghost read = { parts.any_news };

    fn put(alloc: Global, value: &News, out: &mut Vec<u8>) -> Result<(), Memory> {
        NewsField::put(alloc, value, out)
    }

    fn take(alloc: Global, bytes: &mut Reading<'_>) -> Result<News, PartFault> {
        let subject = SubjectField::take(alloc, bytes)?;
        let uri = TextField::take(alloc, bytes)?;
        let event = take_event(alloc, bytes, &subject, &uri)?;
        Ok(News { subject, event })
    }
}

// The URI of a type that transmitters publish.
fn take_uri(alloc: Global, bytes: &mut Reading<'_>) -> Result<Text, PartFault>
    ensures { Takes (ruled parts.uri_in kinds.text bytes.old) result bytes.new }
{
    let begun = bytes.rest();
    let uri = TextField::take(alloc, bytes)?;
    let read = if is_published_uri(uri.as_str()) {
        Some(uri)
    } else {
        None
    };
    bytes.accept(begun, read)
}

// The event with this URI about the subject.
fn take_event(
    alloc: Global,
    bytes: &mut Reading<'_>,
    subject: &Subject,
    uri: &Text,
) -> Result<Event, PartFault>
    ensures { Takes (ruled (parts.event_in subject.now uri.now) kinds.text bytes.old) result bytes.new }
{
    let begun = bytes.rest();
    let text = bytes.take_str()?;
    let event = event_in(alloc, subject, uri.as_str(), text)?;
    bytes.accept(begun, event)
}

// The event that a text spells as its payload, where it is the text that is written of it.
fn event_in(
    alloc: Global,
    subject: &Subject,
    uri: &str,
    text: &str,
) -> Result<Option<Event>, Memory>
    ensures { IfOk result (λ e. e ≡ parts.event_in subject.now uri.now text.now) }
{
    let Some(value) = value_in(alloc, text)? else {
        return Ok(None);
    };
    match event_at(alloc, subject, uri, &value)? {
        Some(event) => event_so(alloc, event, text),
        None => Ok(None),
    }
}

// The event, where this is the text that is written of its payload.
fn event_so(alloc: Global, event: Event, text: &str) -> Result<Option<Event>, Memory>
    ensures { IfOk result (λ e. e ≡ parts.event_so text.now event) }
{
    let written = event_text(alloc, &event)?;
    if written.as_str() == text {
        return Ok(Some(event));
    }
    Ok(None)
}

fn event_at(
    alloc: Global,
    subject: &Subject,
    uri: &str,
    payload: &Value,
) -> Result<Option<Event>, Memory>
    ensures { IfOk result (λ e. e ≡ parts.event_at subject.now uri.now (view payload.now)) }
{
    match sig_event::from_json(alloc, uri, payload, subject) {
        Ok(event) => Ok(Some(event)),
        Err(EventFault::Memory) => Err(Memory),
        Err(_) => Ok(None),
    }
}
