ghost use Rattle.std.specs.Prelude.{◌≡◌, ◌≤◌, IfOk, is_some, ok_or, option_and_then, option_map};
ghost use Rattle.serde_json.specs.Data.{depth};
ghost use Rattle.serde_json.specs.Find.{as_array};
ghost use Rattle.serde_json.specs.Read.{max_depth};
ghost use Rattle.serde_json.specs.View.{view, items_view};
ghost use Rattle.sig_json.specs.Answers.{Answers, result_map};
ghost use Rattle.sig_json.specs.Json.{json_of, member_of, object_member, text_member, whole_member};

use serde_json::Value;
use serde_json::error::Category;
use std::alloc::Global;
use thiserror::Error;

/// Why bytes give no JSON value.
#[derive(Clone, Copy, Debug, PartialEq, Eq, Hash, Error)]
pub enum JsonFault {
    /// The bytes spell no JSON value: bad UTF-8, bad syntax, nesting over 127, or a number that cannot be held.
    #[error("no JSON text of at most 127 levels")]
    NotJson,
    /// Out of memory.
    #[error("out of memory")]
    Memory,
}

/// The value that the bytes spell (RFC 8259), as `serde_json` reads it: of a repeated member the last one stands.
///
/// `NotJson` comes exactly where the bytes are no text in UTF-8 or spell no value of at most 127 levels.
pub fn read(alloc: Global, bytes: &[u8]) -> Result<Value, JsonFault>
    ensures value { Answers JsonFault.Memory (result_map view result) (ok_or (json_of bytes.now) JsonFault.NotJson) }
    ensures nests { IfOk result (λ v. depth (view v) ≤ max_depth) }
{
    match Value::from_slice(alloc, bytes) {
        Ok(value) => Ok(value),
        Err(error) => match error.classify() {
            Category::Memory => Err(JsonFault::Memory),
            _ => Err(JsonFault::NotJson),
        },
    }
}

/// Whether the value is an object that has the member.
pub fn present(value: &Value, name: &str) -> bool
    ensures { result ≡ is_some (member_of name.now (view value.now)) }
{
    value.get(name).is_some()
}

/// The member's text. None exactly where the value is no object, or the member is missing or no string.
pub fn text_of<'a>(value: &'a Value, name: &str) -> Option<&'a str>
    ensures { option_map (λ t. t.now) result ≡ text_member name.now (view value.now) }
{
    value.get(name)?.as_str()
}

/// The member's whole number, from -2^63 to 2^64 - 1. None exactly where the member is missing or no whole number: a
/// number with a fraction or an exponent, and `-0`, is none.
pub fn whole_of(value: &Value, name: &str) -> Option<i128>
    ensures { result ≡ whole_member name.now (view value.now) }
{
    value.get(name)?.as_number()?.as_i128()
}

/// The member's list. None exactly where the member is missing or no array.
pub fn list_of<'a>(value: &'a Value, name: &str) -> Option<&'a Vec<Value>>
    ensures { option_map (λ v. items_view v.now.items) result ≡ option_and_then as_array (member_of name.now (view value.now)) }
{
    value.get(name)?.as_array()
}

/// The member, where it is an object. None exactly where the member is missing or no object.
pub fn object_of<'a>(value: &'a Value, name: &str) -> Option<&'a Value>
    ensures { option_map (λ v. view v.now) result ≡ object_member name.now (view value.now) }
{
    let member = value.get(name)?;
    if member.is_object() {
        Some(member)
    } else {
        None
    }
}
