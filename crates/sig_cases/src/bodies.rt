//! Lines on the bodies by which tokens are delivered (RFC 8935, RFC 8936).

ghost use Rattle.std.specs.Prelude.{◌≡◌, ◌≤◌, IfOk, IfSome};
ghost use Rattle.sig_cases.specs.Bodies as spec;

use serde_json::json;
use sig_delivery::{
    BodyFault, Listed, Outcome, PollAsk, Reported, Sets, outcome_of, read_ask, read_sets,
};
use sig_http::Response;
use sig_json::{Bytes, Items, Memory, Text, Value};
use sig_lines::{bare, cut_at_space, decoded, named, number_in, valued};
use std::alloc::Global;
use std::str;

/// `ok` and what a poll asks and tells whose body is the rest, or `bad` and its first member that is wrong.
pub fn ask(alloc: Global, rest: &[u8]) -> Result<Bytes, Memory> {
    match read_ask(alloc, rest) {
        Ok(ask) => valued(alloc, "ok", &ask_value(alloc, &ask)?),
        Err(fault) => refused(alloc, &fault),
    }
}

/// `ok` and what a poll is answered whose response has the rest as its body, or `bad` and its first member that is wrong.
pub fn sets(alloc: Global, rest: &[u8]) -> Result<Bytes, Memory> {
    match read_sets(alloc, rest) {
        Ok(sets) => valued(alloc, "ok", &sets_value(alloc, &sets)?),
        Err(fault) => refused(alloc, &fault),
    }
}

fn refused(alloc: Global, fault: &BodyFault) -> Result<Bytes, Memory>
    ensures { IfOk result (λ t. t ≡ spec.body_refused fault.now) }
{
    match fault {
        BodyFault::Bad(name) => named(alloc, "bad", name),
        BodyFault::Memory => Err(Memory),
    }
}

fn ask_value(alloc: Global, ask: &PollAsk) -> Result<Value, Memory> {
    let acks = texts_value(alloc, ask.acks.as_slice())?;
    let errors = errors_value(alloc, ask.errors.as_slice())?;
    let max = match ask.max {
        Some(max) => Value::from(max),
        None => Value::Null,
    };
    Ok(json!(in alloc; {"acks": acks, "errors": errors, "max": max})?)
}

/// The list of these texts.
pub fn texts_value(alloc: Global, texts: &[Text]) -> Result<Value, Memory> {
    let mut values = Vec::new(alloc);
    for text in texts {
        values.push(Value::String(String::from_str(alloc, text.as_str())?))?;
    }
    Ok(Value::Array(values))
}

fn errors_value(alloc: Global, errors: &[Reported]) -> Result<Value, Memory> {
    let mut values = Vec::new(alloc);
    for error in errors {
        values.push(json!(in alloc; [error.jti.as_str(), error.code.as_str()])?)?;
    }
    Ok(Value::Array(values))
}

fn sets_value(alloc: Global, sets: &Sets) -> Result<Value, Memory> {
    let mut tokens = Vec::new(alloc);
    for token in sets.tokens.as_slice() {
        tokens.push(token_value(alloc, token)?)?;
    }
    let tokens = Value::Array(tokens);
    Ok(json!(in alloc; {"more": sets.more, "tokens": tokens})?)
}

// A token's identifier and its text; bytes that are no UTF-8 stand as null.
fn token_value(alloc: Global, token: &Listed) -> Result<Value, Memory> {
    let text = match str::from_utf8(token.text.as_slice()) {
        Ok(text) => Value::String(String::from_str(alloc, text)?),
        Err(_) => Value::Null,
    };
    Ok(json!(in alloc; [token.jti.as_str(), text])?)
}

/// What a response of this status with this body settles of a push; none where the rest isn't a status, from 100 to 999,
/// and a word of bytes.
pub fn outcome(alloc: Global, rest: &[u8]) -> Result<Option<Bytes>, Memory> {
    let Some((status, body)) = cut_at_space(rest) else {
        return Ok(None);
    };
    let Some(status) = status_in(status) else {
        return Ok(None);
    };
    let Some(body) = decoded(alloc, body)? else {
        return Ok(None);
    };
    let response = Response {
        status,
        headers: Items::of(Vec::new(alloc)),
        close: false,
        body,
    };
    let outcome = outcome_of(alloc, &response)?;
    Ok(Some(settled(alloc, &outcome)?))
}

// The status that a word is (RFC 9110, section 15).
fn status_in(word: &[u8]) -> Option<u16> {
    match number_in(word) {
        Some(status) if 100 <= status && status <= 999 => Some(status as u16),
        _ => None,
    }
}

fn settled(alloc: Global, outcome: &Outcome) -> Result<Bytes, Memory>
    ensures { IfOk result (λ t. t ≡ spec.settled outcome.now) }
{
    match outcome {
        Outcome::Accepted => bare(alloc, "accepted"),
        Outcome::Reported { code } => named(alloc, "reported", code),
        Outcome::Keep => bare(alloc, "keep"),
    }
}
