//! Poll requests as they are written.

ghost use Rattle.std.specs.Prelude.{◌≡◌, IfOk, OnOk};
ghost use Rattle.serde_json.specs.Data.{string};
ghost use Rattle.serde_json.specs.View.{members_view, view};
ghost use Rattle.sig_delivery.specs.Asks as spec;
ghost use Rattle.sig_delivery.specs.Entries.{put_max};

use crate::body::value_text;
use serde_json::{Map, json};
use sig_json::{Bytes, Memory, Text, Value, put_value};
use sig_terms::{PollAsk, Reported};
use std::alloc::Global;

/// The body of a poll (RFC 8936, section 2.4): `ack`; `maxEvents`, where it is given; `returnImmediately`, which is yes, so
/// that the poll is answered at once; and `setErrs`, under each token's identifier an object with the code as `err` and as
/// `description`. Of several errors for one token the first is written.
#[tactic(auto, using(crate::proofs::WholeAsks::ask_whole))]
pub fn write_ask(alloc: Global, ask: &PollAsk) -> Result<Bytes, Memory>
    ensures { IfOk result (λ text. text ≡ spec.ask_text ask.now) }
{
    let value = ask_value(alloc, ask)?;
    value_text(alloc, &value)
}

#[tactic(auto, using(crate::proofs::PutErrors::max_put))]
fn ask_value(alloc: Global, ask: &PollAsk) -> Result<Value, Memory>
    ensures { IfOk result (λ value. view value ≡ spec.ask_data ask.now) }
{
    let acks = texts_value(alloc, ask.acks.as_slice())?;
    let errors = error_members(alloc, ask.errors.as_slice())?;
    let mut members = Map::new(alloc);
    put_value(alloc, &mut members, "ack", acks)?;
    put_value(alloc, &mut members, "returnImmediately", Value::Bool(true))?;
    put_value(alloc, &mut members, "setErrs", Value::Object(errors))?;
    put_max(alloc, &mut members, ask.max)?;
    Ok(Value::Object(members))
}

fn put_max(alloc: Global, members: &mut Map<String, Value>, max: Option<u64>) -> Result<(), Memory>
    ensures { OnOk result (members_view members.new.entries ≡ put_max max (members_view members.old.entries)) }
{
    match max {
        Some(max) => put_value(alloc, members, "maxEvents", Value::from(max)),
        None => Ok(()),
    }
}

fn texts_value(alloc: Global, texts: &[Text]) -> Result<Value, Memory>
    ensures { IfOk result (λ value. view value ≡ spec.texts_data texts.now) }
{
    let mut values = Vec::new(alloc);
    for text in texts {
        values.push(text_value(alloc, text)?)?;
    }
    Ok(Value::Array(values))
}

fn text_value(alloc: Global, text: &Text) -> Result<Value, Memory>
    ensures { IfOk result (λ value. view value ≡ string text.now) }
{
    Ok(Value::String(String::from_str(alloc, text.as_str())?))
}

// The errors under their tokens' identifiers. They are put from the last to the first, so that the first of an identifier
// stands.
#[tactic(auto, using(crate::proofs::PutErrors::put_none, crate::proofs::PutErrors::put_before))]
fn error_members(alloc: Global, errors: &[Reported]) -> Result<Map<String, Value>, Memory>
    ensures { IfOk result (λ members. members_view members.entries ≡ spec.error_members (spec.errors_by_name errors.now)) }
{
    let mut members = Map::new(alloc);
    let mut left = errors;
    while let Some((error, rest)) = left.split_last() {
        let value = error_value(alloc, error.code.as_str())?;
        put_value(alloc, &mut members, error.jti.as_str(), value)?;
        left = rest;
    }
    Ok(members)
}

fn error_value(alloc: Global, code: &str) -> Result<Value, Memory>
    ensures { IfOk result (λ value. view value ≡ spec.error_data code.now) }
{
    Ok(json!(in alloc; {"description": code, "err": code})?)
}
