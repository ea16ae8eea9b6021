//! The request that pushes a token, and the response that refuses one.

ghost use Rattle.std.specs.Prelude.{◌≡◌, IfOk, IsSome};
ghost use Rattle.serde_json.specs.View.{view};
ghost use Rattle.serde_json.specs.Written.{compact_text};
ghost use Rattle.sig_delivery.specs.Pushes as spec;

use crate::body::value_text;
use serde_json::json;
use sig_http::{Request, Response, header, no_store};
use sig_json::{Bytes, Items, Memory, Text, Value, copy_optional};
use sig_jws::Key;
use sig_set::{Code, Spot, signed_claims};
use sig_terms::{Endpoint, Token};
use std::alloc::Global;

/// The request that pushes a token to its endpoint (RFC 8935, section 2.1): its text, signed under the key, by POST, with
/// the authorization of its stream as it stands. It is written with the kind `application/secevent+jwt`.
pub fn push_request(alloc: Global, token: &Token, key: &Key) -> Result<Request, Memory>
    requires { IsSome token.now.endpoint }
    ensures { IfOk result (λ request. request ≡ spec.push_of token.now key.now) }
{
    Ok(Request {
        method: Text::of(alloc, "POST")?,
        path: path_of(alloc, &token.endpoint)?,
        query: Text::of(alloc, "")?,
        bearer: copy_optional(alloc, &token.authorization)?,
        close: true,
        body: signed_claims(alloc, &token.claims, key)?,
    })
}

fn path_of(alloc: Global, endpoint: &Option<Endpoint>) -> Result<Text, Memory>
    requires { IsSome endpoint.now }
    ensures { IfOk result (λ path. path ≡ spec.path_in endpoint.now) }
{
    match endpoint {
        Some(endpoint) => endpoint.path.copy(alloc),
        None => Text::of(alloc, ""),
    }
}

/// The response to a pushed token that is refused (RFC 8935, section 2.3): status 400, with the code as `err` and the spot
/// at which its judgement ended as `description`, in English, which no cache may keep. It leaves the link open.
pub fn coded(alloc: Global, code: &Code, spot: &Spot) -> Result<Response, Memory>
    ensures { IfOk result (λ response. response ≡ spec.coded_of code.now spot.now) }
{
    let mut headers = Vec::new(alloc);
    headers.push(header(alloc, "content-type", "application/json")?)?;
    headers.push(header(alloc, "content-language", "en")?)?;
    headers.push(no_store(alloc)?)?;
    Ok(Response {
        status: 400,
        headers: Items::of(headers),
        close: false,
        body: refusal_text(alloc, *code, *spot)?,
    })
}

fn refusal_text(alloc: Global, code: Code, spot: Spot) -> Result<Bytes, Memory>
    ensures { IfOk result (λ text. text ≡ compact_text (spec.refusal_data code spot)) }
{
    let value = refusal_value(alloc, code, spot)?;
    value_text(alloc, &value)
}

fn refusal_value(alloc: Global, code: Code, spot: Spot) -> Result<Value, Memory>
    ensures { IfOk result (λ value. view value ≡ spec.refusal_data code spot) }
{
    Ok(json!(in alloc; {"description": spot.as_str(), "err": code.as_str()})?)
}
