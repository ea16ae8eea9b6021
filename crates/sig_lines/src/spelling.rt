//! How values, bytes and names stand in lines and answers.

ghost use Rattle.std.specs.Prelude.{◌≡◌, IfOk, option_map, string_bytes};
ghost use Rattle.serde_json.specs.View.{view};
ghost use Rattle.sig_json.specs.Json.{json_of};
ghost use Rattle.sig_lines.specs.Spelled as spec;

use base64::DecodeAllocError;
use base64::engine::general_purpose::URL_SAFE_NO_PAD;
use sig_json::limits::LAST_NUMBER;
use sig_json::{Bytes, JsonFault, Memory, Text, Value, canon, has_fraction, read};
use std::alloc::Global;
use std::str;

/// The word alone.
pub fn bare(alloc: Global, word: &str) -> Result<Bytes, Memory>
    ensures { IfOk result (λ t. t ≡ word.now) }
{
    Bytes::of(alloc, word.as_bytes())
}

/// The word, a space and what it is about.
pub fn said(alloc: Global, word: &str, rest: &[u8]) -> Result<Bytes, Memory>
    ensures { IfOk result (λ t. t ≡ spec.said word.now rest.now) }
{
    let mut answer = Bytes::of(alloc, word.as_bytes())?;
    answer.add(b" ")?;
    answer.add(rest)?;
    Ok(answer)
}

/// `yes` or `no`.
pub fn yes_or_no(alloc: Global, yes: bool) -> Result<Bytes, Memory>
    ensures { IfOk result (λ t. t ≡ spec.yes_or_no yes) }
{
    bare(alloc, if yes { "yes" } else { "no" })
}

/// The word, a space and a name as a JSON string.
pub fn named(alloc: Global, word: &str, name: &Text) -> Result<Bytes, Memory>
    ensures { IfOk result (λ t. t ≡ spec.named word.now name.now) }
{
    let name = Value::String(String::from_str(alloc, name.as_str())?);
    let name = canon(alloc, &name)?;
    said(alloc, word, name.as_str().as_bytes())
}

/// The word, a space and the value's canonical text; `fraction` where one stands in the value.
pub fn valued(alloc: Global, word: &str, value: &Value) -> Result<Bytes, Memory>
    ensures { IfOk result (λ t. t ≡ spec.valued word.now (view value.now)) }
{
    if has_fraction(value) {
        return bare(alloc, "fraction");
    }
    let text = canon(alloc, value)?;
    said(alloc, word, text.as_str().as_bytes())
}

/// The text as a JSON string, null where there is none.
pub fn text_or_null(alloc: Global, text: &Option<Text>) -> Result<Value, Memory> {
    match text {
        Some(text) => Ok(Value::String(String::from_str(alloc, text.as_str())?)),
        None => Ok(Value::Null),
    }
}

/// The value that the bytes spell, none where they spell none.
pub fn spelled(alloc: Global, bytes: &[u8]) -> Result<Option<Value>, Memory>
    ensures { IfOk result (λ value. option_map view value ≡ json_of bytes.now) }
{
    match read(alloc, bytes) {
        Ok(value) => Ok(Some(value)),
        Err(JsonFault::NotJson) => Ok(None),
        Err(JsonFault::Memory) => Err(Memory),
    }
}

/// The bytes that a word spells, none where it spells none.
pub fn decoded(alloc: Global, word: &[u8]) -> Result<Option<Bytes>, Memory> {
    if word == b"-".as_slice() {
        return Ok(Some(Bytes::new(alloc)));
    }
    if word.is_empty() {
        return Ok(None);
    }
    match URL_SAFE_NO_PAD.decode(alloc, word) {
        Ok(bytes) => Ok(Some(Bytes::from_vec(bytes))),
        Err(DecodeAllocError::DecodeError(_)) => Ok(None),
        Err(DecodeAllocError::OutOfMemory) => Err(Memory),
    }
}

/// The word that spells the bytes.
pub fn encoded(alloc: Global, bytes: &[u8]) -> Result<Bytes, Memory>
    ensures { IfOk result (λ t. t ≡ spec.encoded bytes.now) }
{
    let text = encoded_text(alloc, bytes)?;
    Ok(Bytes::from_vec(text.into_bytes()))
}

/// The same word as a text.
pub fn encoded_text(alloc: Global, bytes: &[u8]) -> Result<String, Memory>
    ensures { IfOk result (λ t. string_bytes t ≡ spec.encoded bytes.now) }
{
    if bytes.is_empty() {
        return Ok(String::from_str(alloc, "-")?);
    }
    Ok(URL_SAFE_NO_PAD.encode(alloc, bytes)?)
}

/// What stands before the first space, and what stands after it; none where there is no space.
pub fn cut_at_space(text: &[u8]) -> Option<(&[u8], &[u8])> {
    let at = text.iter().position(|byte| *byte == b' ')?;
    Some((text.split_at(at).0, text.split_at(at + 1).1))
}

/// The number that a word is: decimal from 1 to 2^62, without leading zeros.
pub fn number_in(word: &[u8]) -> Option<u64> {
    if word.first() == Some(&b'0') || !word.iter().all(|byte| byte.is_ascii_digit()) {
        return None;
    }
    match str::from_utf8(word).ok()?.parse::<u64>() {
        Ok(number) if 0 < number && number <= LAST_NUMBER => Some(number),
        _ => None,
    }
}
