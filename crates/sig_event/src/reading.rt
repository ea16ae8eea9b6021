ghost use Rattle.std.specs.Prelude.{◌≡◌, if◌then◌else◌};
ghost use Rattle.serde_json.specs.View.{view};
ghost use Rattle.sig_json.specs.Answers.{Answers};
ghost use Rattle.sig_json.specs.Checks.{decided, first_failing};
ghost use Rattle.sig_event.specs.Events.{event_by, event_of, known_checks, type_checks};

use crate::{Event, EventFault, EventType, Status};
use serde_json::Value;
use sig_caep::CaepEvent;
use sig_json::{AnyText, OneOf, PayloadFault, Text, optional_member, required_member};
use sig_risc::RiscEvent;
use sig_subject::Subject;
use std::alloc::Global;

/// The event with this URI and this payload, about the subject.
///
/// `NotObject` comes exactly where the payload is no object. Then, where the URI is one of CAEP's, of RISC's or of a
/// stream's two, `Payload` comes by the table of its type, and `Subject` exactly where the type is identifier-changed or
/// identifier-recycled and the subject is neither an e-mail address nor a telephone number. Any other URI gives `Other`.
pub fn from_json(
    alloc: Global,
    uri: &str,
    payload: &Value,
    subject: &Subject,
) -> Result<Event, EventFault>
    ensures { Answers EventFault.Memory result (event_of uri.now (view payload.now) subject.now) }
{
    if !payload.is_object() {
        return Err(EventFault::NotObject);
    }
    match EventType::of_uri(uri) {
        Some(event_type) => about(alloc, event_type, payload, subject),
        None => other(alloc, uri),
    }
}

// An event that isn't read.
fn other(alloc: Global, uri: &str) -> Result<Event, EventFault>
    ensures { Answers EventFault.Memory result (Ok (Event.Other uri.now)) }
{
    let uri = Text::of(alloc, uri)?;
    Ok(Event::Other { uri })
}

// The event of this type that the payload says about the subject.
fn about(
    alloc: Global,
    event_type: EventType,
    payload: &Value,
    subject: &Subject,
) -> Result<Event, EventFault>
    ensures { Answers EventFault.Memory result
        (decided (first_failing (known_checks (Some event_type) (view payload.now) subject.now)) (event_by event_type (view payload.now))) }
{
    match of_type(alloc, event_type, payload) {
        Ok(event) => if_fits(event, event_type.fits(subject)),
        Err(fault) => Err(EventFault::of_payload(fault)),
    }
}

// The event, where it may be about its subject.
fn if_fits(event: Event, fits: bool) -> Result<Event, EventFault>
    ensures { result ≡ (if fits then Ok event else Err EventFault.Subject) }
{
    if fits {
        Ok(event)
    } else {
        Err(EventFault::Subject)
    }
}

// The event of this type that the payload says.
fn of_type(alloc: Global, event_type: EventType, payload: &Value) -> Result<Event, PayloadFault>
    ensures { Answers PayloadFault.Memory result
        (decided (first_failing (type_checks event_type (view payload.now))) (event_by event_type (view payload.now))) }
{
    match event_type {
        EventType::Caep(event_type) => Ok(Event::Caep(CaepEvent::of_type(
            alloc, event_type, payload,
        )?)),
        EventType::Risc(event_type) => Ok(Event::Risc(RiscEvent::of_type(
            alloc, event_type, payload,
        )?)),
        EventType::Verification => verification(alloc, payload),
        EventType::StreamUpdated => stream_updated(alloc, payload),
    }
}

fn verification(alloc: Global, payload: &Value) -> Result<Event, PayloadFault>
    ensures { Answers PayloadFault.Memory result
        (decided (first_failing (type_checks EventType.Verification (view payload.now))) (event_by EventType.Verification (view payload.now))) }
{
    let state = optional_member::<AnyText>(alloc, payload, "state")?;
    Ok(Event::Verification { state })
}

#[tactic(auto, using(sig_json::proofs::Decided::none_fails, sig_json::proofs::Decided::value_is, sig_json::proofs::Decided::one_fails, sig_json::proofs::Decided::rest_decides, sig_json::proofs::Decided::part_decides))]
fn stream_updated(alloc: Global, payload: &Value) -> Result<Event, PayloadFault>
    ensures { Answers PayloadFault.Memory result
        (decided (first_failing (type_checks EventType.StreamUpdated (view payload.now))) (event_by EventType.StreamUpdated (view payload.now))) }
{
    let status = required_member::<OneOf<Status>>(alloc, payload, "status")?;
    let reason = optional_member::<AnyText>(alloc, payload, "reason")?;
    Ok(Event::StreamUpdated { status, reason })
}
