ghost use Rattle.std.specs.Prelude.{◌≡◌, ◌≤◌, Some, IfOk, false};
ghost use Rattle.serde_json.specs.Data.{depth};
ghost use Rattle.serde_json.specs.Read.{max_depth};
ghost use Rattle.serde_json.specs.View.{view};
ghost use Rattle.serde_json.specs.Written.{compact_text, has_float};
ghost use Rattle.sig_json.specs.Canon.{without_fraction};
ghost use Rattle.sig_json.specs.Json.{json_of};

use crate::{Memory, Text};
use serde_json::Value;
use std::alloc::Global;

/// Whether a fraction stands anywhere in the value: a number with a point or an exponent, a whole one outside -2^63 to
/// 2^64 - 1, or `-0`.
#[cycle(has_fraction)]
pub fn has_fraction(value: &Value) -> bool
    ensures { result ≡ has_float (view value.now) }
{
    match value {
        Value::Number(number) => number.is_f64(),
        Value::Array(items) => {
            for item in items {
                if has_fraction(item) {
                    return true;
                }
            }
            false
        }
        Value::Object(members) => {
            for (_, member) in members.iter() {
                if has_fraction(member) {
                    return true;
                }
            }
            false
        }
        _ => false,
    }
}

/// The value's canonical text (RFC 8259): no space, and members in byte order of their names. It spells the value again
/// where that nests at most 127 deep. The caller has seen that no fraction stands in it.
pub fn canon(alloc: Global, value: &Value) -> Result<Text, Memory>
    requires { has_float (view value.now) ≡ false }
    ensures text { IfOk result (λ t. t ≡ compact_text (view value.now)) }
    ensures back { depth (view value.now) ≤ max_depth → IfOk result (λ t. json_of t ≡ Some (view value.now)) }
{
    Ok(Text::from_string(value.to_string(alloc)?))
}

/// The value, and null in place of one in which a fraction stands.
pub fn without_fraction(value: Value) -> Value
    ensures { view result ≡ without_fraction (view value) }
{
    if has_fraction(&value) {
        return Value::Null;
    }
    value
}

/// The canonical text of a value, and `null` for one in which a fraction stands.
pub fn canon_or_null(alloc: Global, value: &Value) -> Result<Text, Memory>
    ensures { IfOk result (λ t. t ≡ compact_text (without_fraction (view value.now))) }
{
    if has_fraction(value) {
        return Text::of(alloc, "null");
    }
    canon(alloc, value)
}
