//! Poll responses as they are written.
//!
//! The text is written into one buffer, with no JSON value of the whole: a signed token has no byte that a JSON string
//! escapes, so each stands in the text as it is.

ghost use Rattle.std.specs.Prelude.{◌≡◌, ◌++◌, IfOk, OnOk, false, None, Some};
ghost use Rattle.json.specs.Print as print;
ghost use Rattle.serde_json.specs.View.{view};
ghost use Rattle.serde_json.specs.Written.{members_text};
ghost use Rattle.sig_jws.specs.Compact.{signed};
ghost use Rattle.sig_set.specs.Written.{header_of, header_text_of};
ghost use Rattle.sig_delivery.specs.Sets as spec;
ghost use Rattle.sig_delivery.specs.Entries.{name_text, payload_entries, signed_entries, start_of};

use crate::body::value_text;
use crate::signing::sign_prepared;
use serde_json::json;
use sig_json::{Bytes, Items, Memory, Text, Value, canon};
use sig_jws::{Key, PreparedKey};
use sig_set::payload_text;
use sig_terms::Token;
use std::alloc::Global;
use std::collections::BTreeMap;

/// The body of a poll response (RFC 8936, section 2.5): whether there are more tokens, and these tokens, signed under the
/// key, each under its identifier. Of several tokens of one identifier the first is written.
#[tactic(auto, using(crate::proofs::SetsText::put_together))]
pub fn write_sets(
    alloc: Global,
    tokens: &Items<Token>,
    more: bool,
    key: &Key,
) -> Result<Bytes, Memory>
    ensures { IfOk result (λ text. text ≡ spec.sets_text tokens.now more key.now) }
{
    let header = header_text(alloc, &key.kid)?;
    let payloads = all_payloads(alloc, tokens.as_slice())?;
    let key = PreparedKey::of(key.copy(alloc)?);
    let mut text = Bytes::of(alloc, start(more).as_bytes())?;
    add_members(alloc, &mut text, &payloads, header.as_slice(), &key)?;
    text.add(b"}")?;
    Ok(text)
}

// The beginning of the text.
fn start(more: bool) -> &'static str
    ensures { result.now ≡ start_of more }
{
    if more {
        "{\"moreAvailable\":true,\"sets\":{"
    } else {
        "{\"moreAvailable\":false,\"sets\":{"
    }
}

// The header of each token.
fn header_text(alloc: Global, kid: &Option<Text>) -> Result<Bytes, Memory>
    ensures { IfOk result (λ text. text ≡ header_text_of kid.now) }
{
    let header = match kid {
        None => plain_header(alloc)?,
        Some(name) => named_header(alloc, name.as_str())?,
    };
    value_text(alloc, &header)
}

fn plain_header(alloc: Global) -> Result<Value, Memory>
    ensures { IfOk result (λ value. view value ≡ header_of None) }
{
    Ok(json!(in alloc; {"alg": "HS256", "typ": "secevent+jwt"})?)
}

fn named_header(alloc: Global, kid: &str) -> Result<Value, Memory>
    ensures { IfOk result (λ value. view value ≡ header_of (Some kid.now)) }
{
    Ok(json!(in alloc; {"alg": "HS256", "kid": kid, "typ": "secevent+jwt"})?)
}

// The payloads of tokens under their identifiers. They are put from the last to the first, so that the first of an
// identifier stands.
#[tactic(auto, using(crate::proofs::PutTokens::put_nothing, crate::proofs::PutTokens::put_before))]
fn all_payloads(alloc: Global, tokens: &[Token]) -> Result<BTreeMap<Text, Bytes>, Memory>
    ensures { IfOk result (λ payloads. payloads.entries ≡ payload_entries tokens.now) }
{
    let mut payloads = BTreeMap::new(alloc);
    let mut left = tokens;
    while let Some((token, rest)) = left.split_last() {
        let payload = payload_text(alloc, &token.claims)?;
        let jti = token.claims.jti.copy(alloc)?;
        payloads.insert(jti, payload)?;
        left = rest;
    }
    Ok(payloads)
}

// Adds the tokens of these payloads, each under its identifier, and the end of their object.
#[tactic(auto, using(crate::proofs::SetsText::member_added))]
fn add_members(
    alloc: Global,
    text: &mut Bytes,
    payloads: &BTreeMap<Text, Bytes>,
    header: &[u8],
    key: &PreparedKey,
) -> Result<(), Memory>
    ensures { OnOk result (text.new ≡ text.old ++ members_text false (spec.listed_members (signed_entries header.now key.now.bytes payloads.now.entries))) }
{
    let mut later = false;
    for (jti, payload) in payloads.iter() {
        add_name(alloc, text, later, jti.as_str())?;
        add_token(alloc, text, header, payload.as_slice(), key)?;
        later = true;
    }
    text.add(b"}")
}

// Adds an identifier as the name of a member, after a comma where members stand before it.
#[tactic(auto, using(crate::proofs::SetsText::name_added))]
fn add_name(alloc: Global, text: &mut Bytes, later: bool, name: &str) -> Result<(), Memory>
    ensures { OnOk result (text.new ≡ text.old ++ name_text later name.now) }
{
    if later {
        text.add(b",")?;
    }
    let name = quoted(alloc, name)?;
    text.add(name.as_str().as_bytes())?;
    text.add(b":")
}

// A text as a JSON string.
fn quoted(alloc: Global, text: &str) -> Result<Text, Memory>
    ensures { IfOk result (λ t. t ≡ print.quoted text.now) }
{
    let value = Value::String(String::from_str(alloc, text)?);
    canon(alloc, &value)
}

// Adds a signed token as a JSON string, in which none of its bytes is escaped.
fn add_token(
    alloc: Global,
    text: &mut Bytes,
    header: &[u8],
    payload: &[u8],
    key: &PreparedKey,
) -> Result<(), Memory>
    ensures { OnOk result (text.new ≡ text.old ++ print.quoted (signed header.now payload.now key.now.bytes)) }
{
    let token = sign_prepared(alloc, header, payload, key)?;
    text.add(b"\"")?;
    text.add(token.as_slice())?;
    text.add(b"\"")?;
    Ok(())
}
