ghost use Rattle.std.specs.Prelude.{◌≡◌, IfOk};
ghost use Rattle.sig_http.specs.Query as spec;

use form_urlencoded::{decode, raw_pairs};
use sig_json::{Memory, Text};
use std::alloc::Global;

/// The value of a name in a query, as a form's text has it (URL Standard, section 5.1): of a name that comes several times
/// the first counts. Names and values are decoded, and what is no UTF-8 in them stands as U+FFFD, so that every query is
/// read. Out of memory is the only error.
pub fn query_value(alloc: Global, query: &str, name: &str) -> Result<Option<Text>, Memory>
    ensures { IfOk result (λ value. value ≡ spec.value_in query.now name.now) }
{
    for (key, value) in raw_pairs(query.as_bytes()) {
        if is_name(alloc, key, name)? {
            return Ok(Some(text_of(alloc, value)?));
        }
    }
    Ok(None)
}

// Whether a name that is still encoded is this one.
fn is_name(alloc: Global, key: &[u8], name: &str) -> Result<bool, Memory>
    ensures { IfOk result (λ is. is ≡ spec.is_name key.now name.now) }
{
    let key = text_of(alloc, key)?;
    Ok(key.as_str() == name)
}

// The text that an encoded name or value stands for.
fn text_of(alloc: Global, bytes: &[u8]) -> Result<Text, Memory>
    ensures { IfOk result (λ text. text ≡ spec.text_of bytes.now) }
{
    let text = decode(alloc, bytes)?;
    Text::of(alloc, text.as_str())
}
