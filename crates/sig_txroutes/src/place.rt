//! The place from which a query asks for streams.

ghost use Rattle.std.specs.Prelude.{◌≡◌, codes, option_and_then};
ghost use Rattle.sig_json.specs.Answers.{Answers};
ghost use Rattle.sig_http.specs.Query.{value_in};
ghost use Rattle.sig_txroutes.specs.Places as spec;

use sig_http::{HttpRefusal, query_value};
use sig_json::Text;
use sig_json::limits::LAST_NUMBER;
use std::alloc::Global;

/// The place of the first stream that a query asks for, 0 where it names none; `Bad` at `from` exactly where it names one
/// that is no decimal number up to 2^62 without leading zeros.
pub fn from_in(alloc: Global, query: &str) -> Result<u64, HttpRefusal>
    ensures { Answers HttpRefusal.Memory result (spec.place_of (value_in query.now (codes "from"))) }
{
    let Some(text) = query_value(alloc, query, "from")? else {
        return Ok(0);
    };
    match number_in(text.as_str()) {
        Some(place) => Ok(place),
        None => Err(HttpRefusal::Bad(Text::of(alloc, "from")?)),
    }
}

// A number up to 2^62, in decimal without leading zeros.
fn number_in(text: &str) -> Option<u64>
    ensures { result ≡ spec.number_in text.now }
{
    if text == "0" {
        return Some(0);
    }
    counted(text)
}

// One from 1 on.
fn counted(text: &str) -> Option<u64>
    ensures { result ≡ spec.counted text.now }
{
    match text.as_bytes() {
        [first, ..] if *first > b'0' => up_to_last(text.parse::<u64>().ok()),
        _ => None,
    }
}

fn up_to_last(number: Option<u64>) -> Option<u64>
    ensures { result ≡ option_and_then spec.within number }
{
    match number {
        Some(number) if number <= LAST_NUMBER => Some(number),
        _ => None,
    }
}
