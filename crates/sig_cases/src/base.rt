//! Lines on JSON values, MACs, keys and the compact form.

ghost use Rattle.std.specs.Prelude.{◌≡◌, IfOk, Ok};
ghost use Rattle.sig_json.specs.Json.{json_of};
ghost use Rattle.sig_jws.specs.Compact.{split_of};
ghost use Rattle.sig_cases.specs.Told as spec;

use sig_json::{Bytes, Memory};
use sig_jws::{Compact, SplitFault, hmac, key_of};
use sig_lines::{bare, cut_at_space, decoded, encoded, said, spelled, valued, yes_or_no};
use std::alloc::Global;
use std::str;

/// `value <canonical text>`, `fraction` or `not-json`.
pub fn json(alloc: Global, rest: &[u8]) -> Result<Bytes, Memory>
    ensures { IfOk result (λ t. t ≡ spec.json_told (json_of rest.now)) }
{
    match spelled(alloc, rest)? {
        Some(value) => valued(alloc, "value", &value),
        None => bare(alloc, "not-json"),
    }
}

/// The MAC under the first of two words of bytes, of the second; none where they aren't two such words.
pub fn mac(alloc: Global, rest: &[u8]) -> Result<Option<Bytes>, Memory> {
    let Some((key, message)) = cut_at_space(rest) else {
        return Ok(None);
    };
    let Some(key) = decoded(alloc, key)? else {
        return Ok(None);
    };
    let Some(message) = decoded(alloc, message)? else {
        return Ok(None);
    };
    let mac = hmac(key.as_slice(), message.as_slice());
    Ok(Some(encoded(alloc, mac.as_slice())?))
}

/// Whether the word is a key; none where it isn't one word.
pub fn key(alloc: Global, rest: &[u8]) -> Result<Option<Bytes>, Memory> {
    if rest.contains(&b' ') {
        return Ok(None);
    }
    let is_key = match str::from_utf8(rest) {
        Ok(word) => key_of(alloc, word)?.is_some(),
        Err(_) => false,
    };
    Ok(Some(yes_or_no(alloc, is_key)?))
}

/// `ok` and the three parts, or the part that is wrong.
pub fn split(alloc: Global, rest: &[u8]) -> Result<Bytes, Memory>
    ensures { IfOk result (λ t. t ≡ spec.split_told (split_of rest.now)) }
{
    match sig_jws::split(alloc, rest) {
        Ok(token) => parts(alloc, &token),
        Err(SplitFault::Dots) => bare(alloc, "dots"),
        Err(SplitFault::Header) => bare(alloc, "header"),
        Err(SplitFault::Payload) => bare(alloc, "payload"),
        Err(SplitFault::Mac) => bare(alloc, "mac"),
        Err(SplitFault::Memory) => Err(Memory),
    }
}

fn parts(alloc: Global, token: &Compact) -> Result<Bytes, Memory>
    ensures { IfOk result (λ t. t ≡ spec.split_told (Ok token.now)) }
{
    let payload = encoded(alloc, token.payload.as_slice())?;
    let mac = encoded(alloc, token.mac.as_slice())?;
    let mut parts = encoded(alloc, token.header.as_slice())?;
    parts.add(b" ")?;
    parts.add(payload.as_slice())?;
    parts.add(b" ")?;
    parts.add(mac.as_slice())?;
    said(alloc, "ok", parts.as_slice())
}
