//! Values of bytes, and tests and readings of members.

ghost use Rattle.std.specs.Prelude.{◌≡◌, IfOk, option_map, unwrap_or, []};
ghost use Rattle.serde_json.specs.View.{view};
ghost use Rattle.sig_json.specs.Json.{json_of, text_member, whole_member};
ghost use Rattle.sig_set.specs.Tests as spec;

use sig_json::limits::LAST_NUMBER;
use sig_json::{JsonFault, Memory, Text, Value, read, text_of, whole_of};
use std::alloc::Global;

/// The value that the bytes spell, none where there is none.
pub fn value_of(alloc: Global, bytes: &[u8]) -> Result<Option<Value>, Memory>
    ensures { IfOk result (λ value. option_map view value ≡ json_of bytes.now) }
{
    match read(alloc, bytes) {
        Ok(value) => Ok(Some(value)),
        Err(JsonFault::NotJson) => Ok(None),
        Err(JsonFault::Memory) => Err(Memory),
    }
}

/// Whether the member is this text.
pub fn has_text(value: &Value, name: &str, wanted: &str) -> bool
    ensures { result ≡ spec.is_text wanted.now (text_member name.now (view value.now)) }
{
    match text_of(value, name) {
        None => false,
        Some(text) => text == wanted,
    }
}

/// The member's text, an empty one where it has none.
pub fn text_in(alloc: Global, value: &Value, name: &str) -> Result<Text, Memory>
    ensures { IfOk result (λ text. text ≡ unwrap_or (text_member name.now (view value.now)) []) }
{
    match text_of(value, name) {
        None => Text::of(alloc, ""),
        Some(text) => Text::of(alloc, text),
    }
}

/// The time of a member, a whole number of seconds from 0 to 2^62.
pub fn time_of(value: &Value, name: &str) -> Option<u64>
    ensures { result ≡ spec.time_of (whole_member name.now (view value.now)) }
{
    match whole_of(value, name) {
        None => None,
        Some(time) => time_within(time),
    }
}

fn time_within(time: i128) -> Option<u64>
    ensures { result ≡ spec.time_of (Some time) }
{
    match u64::try_from(time) {
        Ok(seconds) if seconds <= LAST_NUMBER => Some(seconds),
        _ => None,
    }
}
