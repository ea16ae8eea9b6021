//! Tokens that are written.

ghost use Rattle.std.specs.Prelude.{◌≡◌, IfOk, None, Some, false, map};
ghost use Rattle.serde_json.specs.Data.{array, no_members, object, string};
ghost use Rattle.serde_json.specs.View.{items_of, view};
ghost use Rattle.serde_json.specs.Written.{compact_text, has_float};
ghost use Rattle.sig_json.specs.Answers.{Answers};
ghost use Rattle.sig_set.specs.Written.{audience_data, header_of, header_text_of, payload_of, payload_text_of, put_events, token_text, written_of};

use crate::Claims;
use serde_json::{Map, json};
use sig_event::Event;
use sig_json::limits::TOKEN_BYTES;
use sig_json::{Bytes, Memory, MemoryRefusal, Text, Value, put_value, without_fraction};
use sig_jws::{Key, sign};
use std::alloc::Global;
use thiserror::Error;

/// Why no token was written.
#[derive(Clone, Copy, Debug, PartialEq, Eq, Error)]
pub enum WriteFault {
    /// The token would have this many bytes, which is more than 8,192.
    #[error("the token would have {0} bytes")]
    TooLong(u64),
    /// Out of memory.
    #[error("out of memory")]
    Memory,
}

impl<R: MemoryRefusal> From<R> for WriteFault {
    ghost use Rattle.sig_set.specs.declared.writing.WriteFault.TheVariants.{Memory};

    ghost from_gives = { λ _ e. e ≡ Memory };

    fn from(_refusal: R) -> WriteFault {
        WriteFault::Memory
    }
}

/// The payload of a token with these claims: the text of a JSON object with no space outside of strings and its members
/// in byte order (RFC 8417, section 2.2).
///
/// Of claims made by hand: a subject or an event's payload in which a fraction stands (`sig_json::has_fraction`) is
/// written as null, of two events with one URI only the later is written, and an audience of nobody is written as an
/// empty list, which no judgement takes.
pub fn payload_text(alloc: Global, claims: &Claims) -> Result<Bytes, Memory>
    ensures { IfOk result (λ bytes. bytes ≡ payload_text_of claims.now) }
{
    let payload = payload_value(alloc, claims)?;
    text_bytes(alloc, &payload)
}

/// The signed text of these claims, however long it is: under the key by HS256 (RFC 7518, section 3.2), in compact form
/// (RFC 7515, section 7.1). Its header names the key where the key has a name; its payload is that of `payload_text`.
pub fn signed_claims(alloc: Global, claims: &Claims, key: &Key) -> Result<Bytes, Memory>
    ensures { IfOk result (λ bytes. bytes ≡ token_text claims.now key.now) }
{
    let header = header_text(alloc, &key.kid)?;
    let payload = payload_text(alloc, claims)?;
    sign(
        alloc,
        header.as_slice(),
        payload.as_slice(),
        key.bytes.as_slice(),
    )
}

/// The token with these claims: their signed text, with the payload of `payload_text`.
///
/// `TooLong` comes exactly where the token has more than 8,192 bytes, and says how many it has.
pub fn write(alloc: Global, claims: &Claims, key: &Key) -> Result<Bytes, WriteFault>
    ensures { Answers WriteFault.Memory result (written_of claims.now key.now) }
{
    let token = signed_claims(alloc, claims, key)?;
    let size = token.as_slice().len();
    if size > TOKEN_BYTES {
        return Err(WriteFault::TooLong(size as u64));
    }
    Ok(token)
}

fn header_text(alloc: Global, kid: &Option<Text>) -> Result<Bytes, Memory>
    ensures { IfOk result (λ bytes. bytes ≡ header_text_of kid.now) }
{
    let header = match kid {
        None => plain_header(alloc)?,
        Some(name) => named_header(alloc, name.as_str())?,
    };
    text_bytes(alloc, &header)
}

fn plain_header(alloc: Global) -> Result<Value, Memory>
    ensures { IfOk result (λ value. view value ≡ header_of None) }
{
    Ok(json!(in alloc; {"alg": "HS256", "typ": "secevent+jwt"})?)
}

fn named_header(alloc: Global, kid: &str) -> Result<Value, Memory>
    ensures { IfOk result (λ value. view value ≡ header_of (Some kid.now)) }
{
    Ok(json!(in alloc; {"alg": "HS256", "kid": kid, "typ": "secevent+jwt"})?)
}

fn payload_value(alloc: Global, claims: &Claims) -> Result<Value, Memory>
    ensures { IfOk result (λ value. view value ≡ payload_of claims.now) }
{
    let mut payload = Map::new(alloc);
    let audience = audience_value(alloc, claims.aud.as_slice())?;
    put_value(alloc, &mut payload, "aud", audience)?;
    let events = events_value(alloc, claims.events.as_slice())?;
    put_value(alloc, &mut payload, "events", events)?;
    put_value(alloc, &mut payload, "iat", Value::from(claims.iat))?;
    let iss = text_value(alloc, &claims.iss)?;
    put_value(alloc, &mut payload, "iss", iss)?;
    let jti = text_value(alloc, &claims.jti)?;
    put_value(alloc, &mut payload, "jti", jti)?;
    let subject = sig_subject::to_json(alloc, &claims.subject)?;
    put_value(alloc, &mut payload, "sub_id", without_fraction(subject))?;
    Ok(Value::Object(payload))
}

fn audience_value(alloc: Global, audience: &[Text]) -> Result<Value, Memory>
    ensures { IfOk result (λ value. view value ≡ audience_data audience.now) }
{
    match audience {
        [text] => text_value(alloc, text),
        texts => texts_value(alloc, texts),
    }
}

fn texts_value(alloc: Global, texts: &[Text]) -> Result<Value, Memory>
    ensures { IfOk result (λ value. view value ≡ array (items_of (map string texts.now))) }
{
    let mut values = Vec::new(alloc);
    for text in texts {
        let value = text_value(alloc, text)?;
        values.push(value)?;
    }
    Ok(Value::Array(values))
}

fn text_value(alloc: Global, text: &Text) -> Result<Value, Memory>
    ensures { IfOk result (λ value. view value ≡ string text.now) }
{
    Ok(Value::String(String::from_str(alloc, text.as_str())?))
}

fn events_value(alloc: Global, events: &[Event]) -> Result<Value, Memory>
    ensures { IfOk result (λ value. view value ≡ object (put_events events.now no_members)) }
{
    let mut members = Map::new(alloc);
    for event in events {
        let payload = sig_event::to_json(alloc, event)?;
        put_value(alloc, &mut members, event.uri(), without_fraction(payload))?;
    }
    Ok(Value::Object(members))
}

// The text of a value in which no fraction stands.
fn text_bytes(alloc: Global, value: &Value) -> Result<Bytes, Memory>
    requires { has_float (view value.now) ≡ false }
    ensures { IfOk result (λ bytes. bytes ≡ compact_text (view value.now)) }
{
    let text = value.to_string(alloc)?;
    Ok(Bytes::from_vec(text.into_bytes()))
}
