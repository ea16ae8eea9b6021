//! What the response to a step comes to: a fault, or the step that it shows to be necessary.

ghost use Rattle.std.specs.Prelude.{◌≡◌, IfOk};
ghost use Rattle.sig_json.specs.Answers.{Answers};
ghost use Rattle.sig_manager.specs.Hearing as spec;

use crate::member::{object_where, status_in, stream_in};
use crate::{ManageFault, Step};
use sig_event::Status;
use sig_http::Response;
use sig_json::{Memory, Text};
use std::alloc::Global;

/// The step that a response shows to be necessary, if any.
pub fn further_of(
    alloc: Global,
    step: &Step,
    response: &Response,
) -> Result<Option<Step>, ManageFault>
    ensures { Answers ManageFault.Memory result (spec.further_of step.now response.now) }
{
    match step {
        Step::Status { stream, wanted } => after_status(alloc, stream, *wanted, response),
        Step::Delete { .. } => after_delete(alloc, response),
        Step::Replace { .. } => after_replace(alloc, response),
        Step::Create { status, .. } => after_create(alloc, *status, response),
        Step::SetStatus { .. } => after_set(alloc, response),
    }
}

fn after_status(
    alloc: Global,
    stream: &Text,
    wanted: Status,
    response: &Response,
) -> Result<Option<Step>, ManageFault>
    ensures { Answers ManageFault.Memory result (spec.after_status stream.now wanted response.now) }
{
    let body = object_where(alloc, response.status == 200, response)?;
    let status = status_in(alloc, &body)?;
    Ok(status_step(alloc, stream, wanted, status)?)
}

fn after_delete(alloc: Global, response: &Response) -> Result<Option<Step>, ManageFault>
    ensures { Answers ManageFault.Memory result (spec.after_delete response.now) }
{
    if response.status == 204 {
        Ok(None)
    } else {
        Err(ManageFault::Peer(Text::of(alloc, "status")?))
    }
}

fn after_replace(alloc: Global, response: &Response) -> Result<Option<Step>, ManageFault>
    ensures { Answers ManageFault.Memory result (spec.after_replace response.now) }
{
    object_where(alloc, response.status == 200, response)?;
    Ok(None)
}

fn after_create(
    alloc: Global,
    wanted: Status,
    response: &Response,
) -> Result<Option<Step>, ManageFault>
    ensures { Answers ManageFault.Memory result (spec.after_create wanted response.now) }
{
    let made = response.status == 201 || response.status == 200;
    let body = object_where(alloc, made, response)?;
    let stream = stream_in(alloc, &body)?;
    Ok(status_step(alloc, &stream, wanted, Status::Enabled)?)
}

fn after_set(alloc: Global, response: &Response) -> Result<Option<Step>, ManageFault>
    ensures { Answers ManageFault.Memory result (spec.after_set response.now) }
{
    let body = object_where(alloc, response.status == 200, response)?;
    status_in(alloc, &body)?;
    Ok(None)
}

// The status of a stream is set where it is another than the wanted one.
fn status_step(
    alloc: Global,
    stream: &Text,
    wanted: Status,
    status: Status,
) -> Result<Option<Step>, Memory>
    ensures { IfOk result (λ step. step ≡ spec.status_step stream.now wanted status) }
{
    if same_status(status, wanted) {
        return Ok(None);
    }
    let stream = stream.copy(alloc)?;
    Ok(Some(Step::SetStatus {
        stream,
        status: wanted,
    }))
}

fn same_status(one: Status, other: Status) -> bool
    ensures { result ≡ spec.same_status one other }
{
    match (one, other) {
        (Status::Enabled, Status::Enabled) => true,
        (Status::Paused, Status::Paused) => true,
        (Status::Disabled, Status::Disabled) => true,
        _ => false,
    }
}
