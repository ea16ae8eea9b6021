//! The streams that settings declare.

ghost use Rattle.std.specs.Prelude.{◌≡◌, ◌⊎◌};
ghost use Rattle.serde_json.specs.View.{view};
ghost use Rattle.sig_json.specs.Answers.{Answers};
ghost use Rattle.sig_settings.specs.Lists.{each_once, is_among};
ghost use Rattle.sig_settings.specs.declared.fault.ValueFault.TheVariants.{Memory, Wrong};
ghost use Rattle.sig_declared.specs.Declarations.{description_of};
ghost use Rattle.sig_declared.specs.Streams as spec;

use crate::Declared;
use crate::limits::STREAMS_DECLARED;
use sig_event::Status;
use sig_json::{Items, Value, value_named};
use sig_settings::{ListOf, SettingKind, ValueFault, found, in_member, itself, optional_in};
use sig_stream::{WantFault, want_of};
use sig_terms::Want;
use std::alloc::Global;

/// At most 16 streams with descriptions of their own.
pub struct StreamList;

impl SettingKind for StreamList {
    type Kept = Items<Declared>;

    ghost said = { spec.streams_at };

    fn keep(alloc: Global, value: &Value) -> Result<Items<Declared>, ValueFault> {
        let streams = ListOf::<StreamObject>::keep(alloc, value)?;
        if !are_apart(streams.as_slice()) {
            return Err(itself(alloc));
        }
        Ok(streams)
    }
}

fn are_apart(streams: &[Declared]) -> bool
    ensures { result ≡ spec.are_apart streams.now }
{
    streams.len() <= STREAMS_DECLARED && each_once(streams)
}

// Whether no two streams have one description.
fn each_once(streams: &[Declared]) -> bool
    ensures { result ≡ each_once description_of streams.now }
{
    for (i, stream) in streams.iter().enumerate() {
        if is_among(stream.description(), &streams[i + 1..]) {
            return false;
        }
    }
    true
}

fn is_among(description: &str, streams: &[Declared]) -> bool
    ensures { result ≡ is_among description_of description.now streams.now }
{
    for stream in streams {
        if stream.description() == description {
            return true;
        }
    }
    false
}

struct StreamObject;

impl SettingKind for StreamObject {
    type Kept = Declared;

    ghost said = { spec.stream_at };

    fn keep(alloc: Global, value: &Value) -> Result<Declared, ValueFault> {
        let want = want_at(alloc, value)?;
        is_described(alloc, &want)?;
        let status = status_in(alloc, value)?;
        Ok(Declared { want, status })
    }
}

// What an object wants. The gateway of a push is its transmitter's own, so that an endpoint of `https` may be wanted of any.
fn want_at(alloc: Global, value: &Value) -> Result<Want, ValueFault>
    ensures { Answers Memory result (spec.want_at (view value.now)) }
{
    match want_of(alloc, value, true) {
        Ok(want) => Ok(want),
        Err(fault) => Err(fault_of(alloc, fault)),
    }
}

// The fault of a want, seen from its object.
fn fault_of(alloc: Global, fault: WantFault) -> ValueFault
    ensures { (result ≡ Memory) ⊎ (result ≡ spec.fault_of fault) }
{
    match fault {
        WantFault::Member(name) => member_fault(alloc, name.as_str()),
        WantFault::Method => delivery_fault(alloc, "method"),
        WantFault::Endpoint => delivery_fault(alloc, "endpoint_url"),
        WantFault::Memory => ValueFault::Memory,
    }
}

fn member_fault(alloc: Global, name: &str) -> ValueFault
    ensures { (result ≡ Memory) ⊎ (result ≡ Wrong (spec.member_path name.now)) }
{
    match name {
        "body" => itself(alloc),
        "authorization_header" => delivery_fault(alloc, name),
        name => in_member(alloc, name, itself(alloc)),
    }
}

fn delivery_fault(alloc: Global, name: &str) -> ValueFault
    ensures { (result ≡ Memory) ⊎ (result ≡ Wrong (spec.delivery_path name.now)) }
{
    let member = in_member(alloc, name, itself(alloc));
    in_member(alloc, "delivery", member)
}

fn is_described(alloc: Global, want: &Want) -> Result<(), ValueFault>
    ensures { Answers Memory result (spec.is_described want.now) }
{
    match &want.description {
        Some(text) if !text.as_str().is_empty() => Ok(()),
        _ => Err(in_member(alloc, "description", itself(alloc))),
    }
}

fn status_in(alloc: Global, value: &Value) -> Result<Status, ValueFault>
    ensures { Answers Memory result (spec.status_in (view value.now)) }
{
    match optional_in::<StatusText>(alloc, value, "status")? {
        Some(status) => Ok(status),
        None => Ok(Status::Enabled),
    }
}

struct StatusText;

impl SettingKind for StatusText {
    type Kept = Status;

    ghost said = { spec.status_at };

    fn keep(alloc: Global, value: &Value) -> Result<Status, ValueFault> {
        match value.as_str() {
            Some(text) => found(alloc, value_named::<Status>(text)),
            None => Err(itself(alloc)),
        }
    }
}
