//! Lines on subjects (RFC 9493) and on the payloads of events.

ghost use Rattle.std.specs.Prelude.{◌≡◌, IfOk, Ok};
ghost use Rattle.serde_json.specs.View.{view};
ghost use Rattle.sig_json.specs.Json.{json_of};
ghost use Rattle.sig_subject.specs.Reading.{subject_of};
ghost use Rattle.sig_event.specs.Events.{event_of};
ghost use Rattle.sig_cases.specs.Told as spec;

use sig_event::{Event, EventFault, PayloadFault};
use sig_json::{Bytes, Memory, Value, text_of};
use sig_lines::{bare, named, spelled, subject_in, valued, yes_or_no};
use sig_subject::{Subject, SubjectFault, covers, identical, matches};
use std::alloc::Global;

/// A relation between two subjects.
#[derive(Clone, Copy, PartialEq, Eq)]
pub enum Relation {
    /// They are identical.
    Identical,
    /// They match.
    Matches,
    /// The first covers the second.
    Covers,
}

impl Relation {
    fn holds(self, one: &Subject, two: &Subject) -> bool
        ensures { result ≡ spec.holds self one.now two.now }
    {
        match self {
            Relation::Identical => identical(one, two),
            Relation::Matches => matches(one, two),
            Relation::Covers => covers(one, two),
        }
    }
}

/// `ok` and the subject written again, or the check that fails; `not-json` where the text is none.
pub fn subject(alloc: Global, rest: &[u8]) -> Result<Bytes, Memory>
    ensures { IfOk result (λ t. t ≡ spec.subject_told (json_of rest.now)) }
{
    match spelled(alloc, rest)? {
        Some(value) => read_subject(alloc, &value),
        None => bare(alloc, "not-json"),
    }
}

fn read_subject(alloc: Global, value: &Value) -> Result<Bytes, Memory>
    ensures { IfOk result (λ t. t ≡ spec.read_subject (subject_of (view value.now))) }
{
    match sig_subject::from_json(alloc, value) {
        Ok(subject) => subject_again(alloc, &subject),
        Err(SubjectFault::Format) => bare(alloc, "format"),
        Err(SubjectFault::Member(name)) => named(alloc, "member", &name),
        Err(SubjectFault::Empty) => bare(alloc, "empty"),
        Err(SubjectFault::Nested) => bare(alloc, "nested"),
        Err(SubjectFault::Fraction) => bare(alloc, "fraction"),
        Err(SubjectFault::Memory) => Err(Memory),
    }
}

fn subject_again(alloc: Global, subject: &Subject) -> Result<Bytes, Memory>
    ensures { IfOk result (λ t. t ≡ spec.read_subject (Ok subject.now)) }
{
    valued(alloc, "ok", &sig_subject::to_json(alloc, subject)?)
}

/// Whether the relation holds; none where the rest is no list of two subjects.
pub fn related(alloc: Global, relation: Relation, rest: &[u8]) -> Result<Option<Bytes>, Memory> {
    let Some(value) = spelled(alloc, rest)? else {
        return Ok(None);
    };
    let Some([one, two]) = value.as_array().map(|list| list.as_slice()) else {
        return Ok(None);
    };
    let Some(one) = subject_in(alloc, one)? else {
        return Ok(None);
    };
    let Some(two) = subject_in(alloc, two)? else {
        return Ok(None);
    };
    Ok(Some(yes_or_no(alloc, relation.holds(&one, &two))?))
}

/// `ok` and the payload of the event written again, or the check that fails; none where the rest is no object with a
/// `payload`, a `subject` that is one, and a `uri` that is a text.
pub fn event(alloc: Global, rest: &[u8]) -> Result<Option<Bytes>, Memory> {
    let Some(case) = spelled(alloc, rest)? else {
        return Ok(None);
    };
    let (Some(payload), Some(about), Some(uri)) = (
        case.get("payload"),
        case.get("subject"),
        text_of(&case, "uri"),
    ) else {
        return Ok(None);
    };
    let Some(about) = subject_in(alloc, about)? else {
        return Ok(None);
    };
    Ok(Some(read_event(alloc, uri, payload, &about)?))
}

fn read_event(alloc: Global, uri: &str, payload: &Value, about: &Subject) -> Result<Bytes, Memory>
    ensures { IfOk result (λ t. t ≡ spec.event_told (event_of uri.now (view payload.now) about.now)) }
{
    match sig_event::from_json(alloc, uri, payload, about) {
        Ok(event) => event_again(alloc, &event),
        Err(EventFault::NotObject) => bare(alloc, "not-object"),
        Err(EventFault::Payload(fault)) => refused_payload(alloc, &fault),
        Err(EventFault::Subject) => bare(alloc, "subject"),
        Err(EventFault::Memory) => Err(Memory),
    }
}

fn event_again(alloc: Global, event: &Event) -> Result<Bytes, Memory>
    ensures { IfOk result (λ t. t ≡ spec.event_told (Ok event.now)) }
{
    valued(alloc, "ok", &sig_event::to_json(alloc, event)?)
}

fn refused_payload(alloc: Global, fault: &PayloadFault) -> Result<Bytes, Memory>
    ensures { IfOk result (λ t. t ≡ spec.payload_refused fault.now) }
{
    match fault {
        PayloadFault::Missing(name) => named(alloc, "missing", name),
        PayloadFault::Kind(name) => named(alloc, "kind", name),
        PayloadFault::Value(name) => named(alloc, "value", name),
        PayloadFault::Fraction(name) => named(alloc, "fraction", name),
        PayloadFault::Memory => Err(Memory),
    }
}
