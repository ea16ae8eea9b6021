//! Poll requests as they are read.

ghost use Rattle.std.specs.Prelude.{◌≡◌, IfOk, is_some};
ghost use Rattle.serde_json.specs.View.{members_view, view};
ghost use Rattle.sig_json.specs.Answers.{Answers};
ghost use Rattle.sig_delivery.specs.Asks as spec;

use crate::BodyFault;
use crate::body::{object_in, texts_in};
use serde_json::Map;
use sig_json::{Items, Memory, Text, Value, text_of};
use sig_terms::{PollAsk, Reported};
use std::alloc::Global;

/// What the body of a poll asks and tells (RFC 8936, section 2.4); an empty body is `{}`, and unknown members are passed
/// over.
///
/// `Bad` names the first member of another kind, in the order `body`, `ack`, `maxEvents`, `returnImmediately`, `setErrs`:
/// the body is a JSON object, `ack` a list of texts, `maxEvents` a whole number from 0 to 2^64 - 1, `returnImmediately` a
/// boolean, on which nothing rests, and `setErrs` an object whose members are objects with a text `err`. Each may be
/// missing. The errors stand in byte order of their tokens' identifiers.
#[tactic(auto, using(crate::proofs::EmptyAsks::empty_ask))]
pub fn read_ask(alloc: Global, body: &[u8]) -> Result<PollAsk, BodyFault>
    ensures { Answers BodyFault.Memory result (spec.ask_of body.now) }
{
    if body.is_empty() {
        return Ok(PollAsk {
            max: None,
            acks: Items::of(Vec::new(alloc)),
            errors: Items::of(Vec::new(alloc)),
        });
    }
    match object_in(alloc, body)? {
        Some(value) => ask_in(alloc, &value),
        None => Err(BodyFault::Bad(Text::of(alloc, "body")?)),
    }
}

// What an object asks, or its first member that is wrong.
#[tactic(auto, unfolding(crate::specs::Asks::ask_in))]
fn ask_in(alloc: Global, value: &Value) -> Result<PollAsk, BodyFault>
    ensures { Answers BodyFault.Memory result (spec.ask_in (view value.now)) }
{
    let Some(acks) = acks_in(alloc, value)? else {
        return Err(BodyFault::Bad(Text::of(alloc, "ack")?));
    };
    let Some(max) = max_in(value) else {
        return Err(BodyFault::Bad(Text::of(alloc, "maxEvents")?));
    };
    if !says_when(value) {
        return Err(BodyFault::Bad(Text::of(alloc, "returnImmediately")?));
    }
    let Some(errors) = errors_in(alloc, value)? else {
        return Err(BodyFault::Bad(Text::of(alloc, "setErrs")?));
    };
    Ok(PollAsk { max, acks, errors })
}

fn acks_in(alloc: Global, value: &Value) -> Result<Option<Items<Text>>, Memory>
    ensures { IfOk result (λ acks. acks ≡ spec.acks_in (view value.now)) }
{
    match value.get("ack") {
        None => Ok(Some(Items::of(Vec::new(alloc)))),
        Some(acks) => acks_at(alloc, acks),
    }
}

fn acks_at(alloc: Global, acks: &Value) -> Result<Option<Items<Text>>, Memory>
    ensures { IfOk result (λ texts. texts ≡ spec.acks_at (view acks.now)) }
{
    match acks.as_array() {
        None => Ok(None),
        Some(items) => texts_in(alloc, items.as_slice()),
    }
}

fn max_in(value: &Value) -> Option<Option<u64>>
    ensures { result ≡ spec.max_in (view value.now) }
{
    match value.get("maxEvents") {
        None => Some(None),
        Some(max) => max_at(max),
    }
}

fn max_at(max: &Value) -> Option<Option<u64>>
    ensures { result ≡ spec.max_at (view max.now) }
{
    match max.as_u64() {
        None => None,
        Some(max) => Some(Some(max)),
    }
}

// Whether `returnImmediately` is a boolean or missing.
fn says_when(value: &Value) -> bool
    ensures { result ≡ is_some (spec.immediately_in (view value.now)) }
{
    match value.get("returnImmediately") {
        None => true,
        Some(immediately) => immediately.as_bool().is_some(),
    }
}

fn errors_in(alloc: Global, value: &Value) -> Result<Option<Items<Reported>>, Memory>
    ensures { IfOk result (λ errors. errors ≡ spec.errors_in (view value.now)) }
{
    match value.get("setErrs") {
        None => Ok(Some(Items::of(Vec::new(alloc)))),
        Some(errors) => errors_at(alloc, errors),
    }
}

fn errors_at(alloc: Global, errors: &Value) -> Result<Option<Items<Reported>>, Memory>
    ensures { IfOk result (λ reported. reported ≡ spec.errors_at (view errors.now)) }
{
    match errors.as_object() {
        None => Ok(None),
        Some(errors) => all_errors(alloc, errors),
    }
}

// The errors of an object, where each has a code.
#[tactic(auto, using(crate::proofs::Collected::behind_nothing, crate::proofs::Collected::behind_all, crate::proofs::Collected::one_behind))]
fn all_errors(alloc: Global, errors: &Map<String, Value>) -> Result<Option<Items<Reported>>, Memory>
    ensures { IfOk result (λ reported. reported ≡ spec.errors_of (members_view errors.now.entries)) }
{
    let mut reported = Vec::new(alloc);
    for (jti, error) in errors.iter() {
        let Some(code) = text_of(error, "err") else {
            return Ok(None);
        };
        let jti = Text::of(alloc, jti.as_str())?;
        let code = Text::of(alloc, code)?;
        reported.push(Reported { jti, code })?;
    }
    Ok(Some(Items::of(reported)))
}
