ghost use Rattle.std.specs.Prelude.{◌≡◌, IfOk};
ghost use Rattle.serde_json.specs.View.{view};
ghost use Rattle.sig_event.specs.Events.{event_text, payload_of};

use crate::{Event, Status};
use serde_json::{Map, Value};
use sig_json::{AnyText, Memory, OneOf, Text, canon_or_null, put_member, put_optional_member};
use std::alloc::Global;

/// The event's payload; an empty object for an event that isn't read.
pub fn to_json(alloc: Global, event: &Event) -> Result<Value, Memory>
    ensures { IfOk result (λ v. view v ≡ payload_of event.now) }
{
    match event {
        Event::Caep(event) => sig_caep::to_json(alloc, event),
        Event::Risc(event) => sig_risc::to_json(alloc, event),
        Event::Verification { state } => verification(alloc, state),
        Event::StreamUpdated { status, reason } => stream_updated(alloc, *status, reason),
        Event::Other { .. } => Ok(Value::Object(Map::new(alloc))),
    }
}

/// The canonical text of the event's payload. It is `null` where a fraction stands in the payload, which none that was
/// read has.
pub fn event_text(alloc: Global, event: &Event) -> Result<Text, Memory>
    ensures { IfOk result (λ t. t ≡ event_text event.now) }
{
    let payload = to_json(alloc, event)?;
    canon_or_null(alloc, &payload)
}

fn verification(alloc: Global, state: &Option<Text>) -> Result<Value, Memory>
    ensures { IfOk result (λ v. view v ≡ payload_of (Event.Verification state.now)) }
{
    let mut payload = Map::new(alloc);
    put_optional_member::<AnyText>(alloc, &mut payload, "state", state)?;
    Ok(Value::Object(payload))
}

fn stream_updated(alloc: Global, status: Status, reason: &Option<Text>) -> Result<Value, Memory>
    ensures { IfOk result (λ v. view v ≡ payload_of (Event.StreamUpdated status reason.now)) }
{
    let mut payload = Map::new(alloc);
    put_member::<OneOf<Status>>(alloc, &mut payload, "status", &status)?;
    put_optional_member::<AnyText>(alloc, &mut payload, "reason", reason)?;
    Ok(Value::Object(payload))
}
