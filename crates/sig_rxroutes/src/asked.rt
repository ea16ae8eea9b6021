//! What queries and bodies ask. `Bad` names the place that is wrong.

ghost use Rattle.std.specs.Prelude.{◌≡◌, IfOk, codes, option_and_then, option_map};
ghost use Rattle.serde_json.specs.View.{view};
ghost use Rattle.sig_json.specs.Answers.{Answers};
ghost use Rattle.sig_json.specs.Json.{json_of, object_itself};
ghost use Rattle.sig_http.specs.Query.{value_in};
ghost use Rattle.sig_rxroutes.specs.Asked as spec;

use sig_http::{HttpRefusal, query_value};
use sig_json::limits::LAST_NUMBER;
use sig_json::{JsonFault, Memory, Text, Value, read};
use sig_subject::{Subject, SubjectFault, from_json};
use std::alloc::Global;

/// The place of the first row that a query asks for, 0 where it names none; `Bad` at `from` exactly where it names one
/// that is no decimal number up to 2^62 without leading zeros.
pub fn from_in(alloc: Global, query: &str) -> Result<u64, HttpRefusal>
    ensures { Answers HttpRefusal.Memory result (spec.place_of (value_in query.now (codes "from"))) }
{
    let Some(text) = query_value(alloc, query, "from")? else {
        return Ok(0);
    };
    match number_in(text.as_str()) {
        Some(place) => Ok(place),
        None => Err(HttpRefusal::Bad(Text::of(alloc, "from")?)),
    }
}

// A number up to 2^62, in decimal without leading zeros.
fn number_in(text: &str) -> Option<u64>
    ensures { result ≡ spec.number_in text.now }
{
    if text == "0" {
        return Some(0);
    }
    counted(text)
}

// One from 1 on.
fn counted(text: &str) -> Option<u64>
    ensures { result ≡ spec.counted text.now }
{
    match text.as_bytes() {
        [first, ..] if *first > b'0' => up_to_last(text.parse::<u64>().ok()),
        _ => None,
    }
}

fn up_to_last(number: Option<u64>) -> Option<u64>
    ensures { result ≡ option_and_then spec.within number }
{
    match number {
        Some(number) if number <= LAST_NUMBER => Some(number),
        _ => None,
    }
}

/// The subject that a body is (RFC 9493, section 3). `Bad` comes at `body` exactly where it spells no JSON object, and at
/// `subject` exactly where the object that it spells is no subject.
pub fn subject_in(alloc: Global, body: &[u8]) -> Result<Subject, HttpRefusal>
    ensures { Answers HttpRefusal.Memory result (spec.subject_in body.now) }
{
    match object_in(alloc, body)? {
        Some(value) => subject_of(alloc, &value),
        None => Err(HttpRefusal::Bad(Text::of(alloc, "body")?)),
    }
}

// The value of a body, where it is a JSON object.
fn object_in(alloc: Global, body: &[u8]) -> Result<Option<Value>, Memory>
    ensures { IfOk result (λ value. option_map view value ≡ option_and_then object_itself (json_of body.now)) }
{
    match read(alloc, body) {
        Ok(value) if value.is_object() => Ok(Some(value)),
        Ok(_) | Err(JsonFault::NotJson) => Ok(None),
        Err(JsonFault::Memory) => Err(Memory),
    }
}

fn subject_of(alloc: Global, value: &Value) -> Result<Subject, HttpRefusal>
    ensures { Answers HttpRefusal.Memory result (spec.subject_of (view value.now)) }
{
    match from_json(alloc, value) {
        Ok(subject) => Ok(subject),
        Err(SubjectFault::Memory) => Err(HttpRefusal::Memory),
        Err(_) => Err(HttpRefusal::Bad(Text::of(alloc, "subject")?)),
    }
}
