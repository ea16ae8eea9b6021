//! What the bodies of responses say. The fault names the member that is missing or wrong.

ghost use Rattle.std.specs.Prelude.{◌≡◌};
ghost use Rattle.serde_json.specs.View.{view};
ghost use Rattle.sig_json.specs.Answers.{Answers, result_map};
ghost use Rattle.sig_manager.specs.Members as spec;

use crate::ManageFault;
use sig_event::Status;
use sig_http::Response;
use sig_json::{JsonFault, Text, Value, read, text_of, value_named};
use std::alloc::Global;

/// The object that a body spells.
pub fn object_in(alloc: Global, response: &Response) -> Result<Value, ManageFault>
    ensures { Answers ManageFault.Memory (result_map view result) (spec.object_in response.now) }
{
    match read(alloc, response.body.as_slice()) {
        Ok(value) if value.is_object() => Ok(value),
        Ok(_) | Err(JsonFault::NotJson) => Err(ManageFault::Peer(Text::of(alloc, "body")?)),
        Err(JsonFault::Memory) => Err(ManageFault::Memory),
    }
}

/// The object that a body spells, where the response has a status with which it is one.
pub fn object_where(alloc: Global, met: bool, response: &Response) -> Result<Value, ManageFault>
    ensures { Answers ManageFault.Memory (result_map view result) (spec.where_met met (spec.object_in response.now)) }
{
    if met {
        object_in(alloc, response)
    } else {
        Err(ManageFault::Peer(Text::of(alloc, "status")?))
    }
}

/// The name of a stream.
pub fn stream_in(alloc: Global, body: &Value) -> Result<Text, ManageFault>
    ensures { Answers ManageFault.Memory result (spec.stream_in (view body.now)) }
{
    match text_of(body, "stream_id") {
        Some(stream) => Ok(Text::of(alloc, stream)?),
        None => Err(ManageFault::Peer(Text::of(alloc, "stream_id")?)),
    }
}

/// The status of a stream.
pub fn status_in(alloc: Global, body: &Value) -> Result<Status, ManageFault>
    ensures { Answers ManageFault.Memory result (spec.status_in (view body.now)) }
{
    match text_of(body, "status").and_then(|text| value_named::<Status>(text)) {
        Some(status) => Ok(status),
        None => Err(ManageFault::Peer(Text::of(alloc, "status")?)),
    }
}
