//! What a transmitter lists of a client's streams.

ghost use Rattle.std.specs.Prelude.{◌≡◌, IfOk, codes, true};
ghost use Rattle.std.specs.Result.{result_ok};
ghost use Rattle.serde_json.specs.View.{items_view, view};
ghost use Rattle.sig_json.specs.Answers.{Answers, result_map};
ghost use Rattle.sig_json.specs.Json.{text_member};
ghost use Rattle.sig_manager.specs.Listing as spec;
ghost use Rattle.sig_manager.specs.Members as members;
ghost use Rattle.sig_stream.specs.Wants.{want_of};

use crate::member::stream_in;
use crate::{Listed, ManageFault};
use sig_http::Response;
use sig_json::{Items, JsonFault, Memory, Text, Value, read, text_of};
use sig_stream::{WantFault, want_of};
use sig_terms::Want;
use std::alloc::Global;

/// The streams that a response lists.
pub fn listed_in(alloc: Global, response: &Response) -> Result<Items<Listed>, ManageFault>
    ensures { Answers ManageFault.Memory result (spec.listed_in response.now) }
{
    if response.status != 200 {
        return Err(ManageFault::Peer(Text::of(alloc, "status")?));
    }
    let items = items_in(alloc, response)?;
    listed_of(alloc, items.as_slice())
}

// The items of the array that a body spells.
fn items_in(alloc: Global, response: &Response) -> Result<Vec<Value>, ManageFault>
    ensures { Answers ManageFault.Memory (result_map (λ v. items_view v.items) result) (members.items_in response.now) }
{
    match read(alloc, response.body.as_slice()) {
        Ok(Value::Array(items)) => Ok(items),
        Ok(_) | Err(JsonFault::NotJson) => Err(ManageFault::Peer(Text::of(alloc, "body")?)),
        Err(JsonFault::Memory) => Err(ManageFault::Memory),
    }
}

// The streams of a list; the first that is wrong is the fault.
#[tactic(auto, using(crate::proofs::Behind::behind_nothing, crate::proofs::Behind::behind_all, crate::proofs::Behind::listed_behind, crate::proofs::Behind::fault_behind))]
fn listed_of(alloc: Global, items: &[Value]) -> Result<Items<Listed>, ManageFault>
    ensures { Answers ManageFault.Memory result (spec.listed_of (items_view items.now)) }
{
    let mut listed = Vec::new(alloc);
    for item in items {
        listed.push(listed_at(alloc, item)?)?;
    }
    Ok(Items::of(listed))
}

fn listed_at(alloc: Global, item: &Value) -> Result<Listed, ManageFault>
    ensures { Answers ManageFault.Memory result (spec.listed_at (view item.now)) }
{
    if !item.is_object() {
        return Err(ManageFault::Peer(Text::of(alloc, "body")?));
    }
    let id = stream_in(alloc, item)?;
    let description = description_in(alloc, item)?;
    let want = want_in(alloc, item)?;
    Ok(Listed {
        id,
        description,
        want,
    })
}

fn description_in(alloc: Global, item: &Value) -> Result<Option<Text>, Memory>
    ensures { IfOk result (λ d. d ≡ text_member (codes "description") (view item.now)) }
{
    match text_of(item, "description") {
        Some(text) => Ok(Some(Text::of(alloc, text)?)),
        None => Ok(None),
    }
}

// What a stream is, where that can be read; the gateway of a push is the transmitter's.
fn want_in(alloc: Global, item: &Value) -> Result<Option<Want>, Memory>
    ensures { IfOk result (λ w. w ≡ result_ok (want_of true (view item.now))) }
{
    match want_of(alloc, item, true) {
        Ok(want) => Ok(Some(want)),
        Err(WantFault::Memory) => Err(Memory),
        Err(_) => Ok(None),
    }
}
