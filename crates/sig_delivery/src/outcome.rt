//! What the response to a push settles.

ghost use Rattle.std.specs.Prelude.{◌≡◌, IfOk};
ghost use Rattle.sig_delivery.specs.Outcomes as spec;

use sig_http::Response;
use sig_json::{JsonFault, Memory, Text, read, text_of};
use sig_terms::Outcome;
use std::alloc::Global;

/// What the response to a push settles (RFC 8935, sections 2.2 to 2.4).
///
/// `Accepted` comes exactly at 202, whatever the body is. `Reported` comes exactly at 400 with a JSON object whose `err` is
/// one of the codes that section 2.4 registers for a faulty token: `invalid_request`, `invalid_key`, `invalid_issuer`
/// and `invalid_audience`. Else it is `Keep`, so that the token is pushed again: `authentication_failed` and
/// `access_denied` speak of who brings the token, and a code that isn't registered may be a proxy's.
pub fn outcome_of(alloc: Global, response: &Response) -> Result<Outcome, Memory>
    ensures { IfOk result (λ outcome. outcome ≡ spec.outcome_of response.now) }
{
    match response.status {
        202 => Ok(Outcome::Accepted),
        400 => reported_in(alloc, response.body.as_slice()),
        _ => Ok(Outcome::Keep),
    }
}

// What the body of a refusal says.
fn reported_in(alloc: Global, body: &[u8]) -> Result<Outcome, Memory>
    ensures { IfOk result (λ outcome. outcome ≡ spec.reported_as (spec.code_in body.now)) }
{
    let value = match read(alloc, body) {
        Ok(value) => value,
        Err(JsonFault::NotJson) => return Ok(Outcome::Keep),
        Err(JsonFault::Memory) => return Err(Memory),
    };
    match text_of(&value, "err") {
        None => Ok(Outcome::Keep),
        Some(code) => reported_as(alloc, code),
    }
}

fn reported_as(alloc: Global, code: &str) -> Result<Outcome, Memory>
    ensures { IfOk result (λ outcome. outcome ≡ spec.reported_as (Some code.now)) }
{
    if !is_of_token(code) {
        return Ok(Outcome::Keep);
    }
    Ok(Outcome::Reported {
        code: Text::of(alloc, code)?,
    })
}

// Whether a receiver says by this code that the token is faulty.
fn is_of_token(code: &str) -> bool
    ensures { result ≡ spec.is_of_token code.now }
{
    code == "invalid_request"
        || code == "invalid_key"
        || code == "invalid_issuer"
        || code == "invalid_audience"
}
