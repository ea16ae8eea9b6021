//! A token's text opened: its compact form, its header and its payload.

ghost use Rattle.std.specs.Prelude.{◌≡◌, IfOk, Some};
ghost use Rattle.serde_json.specs.View.{view};
ghost use Rattle.sig_json.specs.Answers.{Answers};
ghost use Rattle.sig_json.specs.Json.{json_of};
ghost use Rattle.sig_set.specs.Checks.{outcome, passed};
ghost use Rattle.sig_set.specs.Judgement.{form_checks, payload_checks, payload_in, text_checks, token_in};

use crate::refusal::refused;
use crate::values::value_of;
use crate::{Code, LastHeader, Refusal, Spot};
use sig_json::limits::TOKEN_BYTES;
use sig_json::{Value, text_of};
use sig_jws::{Compact, SplitFault, split};
use std::alloc::Global;

/// What a token's text holds.
#[derive(Drop)]
pub struct Opened {
    /// Its compact form.
    pub token: Compact,
    /// The payload of that form.
    pub payload: Value,
}

/// What the text holds, where it is a token by its form: `InvalidRequest` at the first part that isn't as it has to be.
/// Its header is the last one afterwards.
pub fn open(alloc: Global, last: &mut LastHeader, bytes: &[u8]) -> Result<Opened, Refusal>
    ensures checks { Answers Refusal.Memory (outcome result) (passed (form_checks bytes.now)) }
    ensures token { IfOk result (λ opened. token_in bytes.now ≡ Some opened.token) }
    ensures header { IfOk result (λ opened. last.new ≡ Some opened.token.header) }
    ensures payload { IfOk result (λ opened. payload_in (token_in bytes.now) ≡ Some (view opened.payload)) }
{
    let token = token_from(alloc, bytes)?;
    last.turn_to(alloc, token.header.as_slice())?;
    let payload = payload_from(alloc, token.payload.as_slice())?;
    Ok(Opened { token, payload })
}

/// The compact form of the text.
fn token_from(alloc: Global, bytes: &[u8]) -> Result<Compact, Refusal>
    ensures checks { Answers Refusal.Memory (outcome result) (passed (text_checks bytes.now)) }
    ensures token { IfOk result (λ token. token_in bytes.now ≡ Some token) }
{
    if bytes.len() > TOKEN_BYTES {
        return Err(refused(Code::InvalidRequest, Spot::Length));
    }
    match split(alloc, bytes) {
        Ok(token) => Ok(token),
        Err(SplitFault::Memory) => Err(Refusal::Memory),
        Err(_) => Err(refused(Code::InvalidRequest, Spot::Compact)),
    }
}

/// The payload that the bytes spell.
fn payload_from(alloc: Global, bytes: &[u8]) -> Result<Value, Refusal>
    ensures checks { Answers Refusal.Memory (outcome result) (passed (payload_checks (json_of bytes.now))) }
    ensures value { IfOk result (λ value. json_of bytes.now ≡ Some (view value)) }
{
    let Some(payload) = value_of(alloc, bytes)? else {
        return Err(refused(Code::InvalidRequest, Spot::Payload));
    };
    if !payload.is_object() {
        return Err(refused(Code::InvalidRequest, Spot::Payload));
    }
    if text_of(&payload, "iss").is_none() {
        return Err(refused(Code::InvalidRequest, Spot::Iss));
    }
    Ok(payload)
}
