//! Lines on the routes of a transmitter: what a request asks (OpenID Shared Signals Framework 1.0, sections 7.1 and 8.1).
//!
//! The clients are `acme` and `zeta`, whose bearers are `acme-bearer` and `zeta-bearer`; the operator's is
//! `operator-bearer`.

ghost use Rattle.std.specs.Prelude.{◌≡◌, IfOk};
ghost use Rattle.sig_cases.specs.Routes as spec;

use crate::asked::call_value;
use serde_json::json;
use sig_http::{HttpRefusal, Request};
use sig_json::{Bytes, Items, Memory, Text, Value, text_of};
use sig_jws::Key;
use sig_lines::{bare, named, spelled, valued};
use sig_outside::Place;
use sig_terms::{Call, Client, Defaults, Rules};
use sig_txroutes::call_of;
use std::alloc::Global;

/// What a request asks, or why it is refused; none where the rest is no object with a text `method` and a text `path`,
/// whose `bearer`, `body` and `query` are texts and whose `gateway` is a boolean where they are there.
pub fn route(alloc: Global, rest: &[u8]) -> Result<Option<Bytes>, Memory> {
    match spelled(alloc, rest)? {
        Some(case) => route_in(alloc, &case),
        None => Ok(None),
    }
}

fn route_in(alloc: Global, case: &Value) -> Result<Option<Bytes>, Memory> {
    let Some(gateway) = gateway_in(case) else {
        return Ok(None);
    };
    match request_in(alloc, case)? {
        Some(request) => Ok(Some(route_by(alloc, &request, gateway)?)),
        None => Ok(None),
    }
}

fn route_by(alloc: Global, request: &Request, gateway: bool) -> Result<Bytes, Memory> {
    let rules = rules(alloc, gateway)?;
    routed(alloc, request, &rules)
}

// Whether there is a gateway.
fn gateway_in(case: &Value) -> Option<bool> {
    match case.get("gateway") {
        Some(gateway) => gateway.as_bool(),
        None => Some(false),
    }
}

fn request_in(alloc: Global, case: &Value) -> Result<Option<Request>, Memory> {
    let (Some(method), Some(path)) = (text_of(case, "method"), text_of(case, "path")) else {
        return Ok(None);
    };
    let (Some(body), Some(query)) = (text_or_empty(case, "body"), text_or_empty(case, "query"))
    else {
        return Ok(None);
    };
    let bearer = match case.get("bearer") {
        Some(Value::String(bearer)) => Some(Text::of(alloc, bearer.as_str())?),
        Some(_) => return Ok(None),
        None => None,
    };
    Ok(Some(Request {
        method: Text::of(alloc, method)?,
        path: Text::of(alloc, path)?,
        query: Text::of(alloc, query)?,
        bearer,
        close: false,
        body: Bytes::of(alloc, body.as_bytes())?,
    }))
}

// The member's text, the empty one where it isn't there, none where it is of another kind.
fn text_or_empty<'a>(case: &'a Value, name: &str) -> Option<&'a str> {
    match case.get(name) {
        Some(value) => value.as_str(),
        None => Some(""),
    }
}

/// The rules of the transmitter, with a gateway or without.
pub fn rules(alloc: Global, gateway: bool) -> Result<Rules, Memory> {
    let mut clients = Vec::new(alloc);
    clients.push(client(alloc, "acme", "acme-bearer")?)?;
    clients.push(client(alloc, "zeta", "zeta-bearer")?)?;
    Ok(Rules {
        issuer: Text::of(alloc, "https://idp.example")?,
        base: Text::of(alloc, "http://tx.example")?,
        defaults: Defaults::All,
        interval: 60,
        gateway: if gateway { Some(place(alloc)?) } else { None },
        operator: Text::of(alloc, "operator-bearer")?,
        clients: Items::of(clients),
        key: Key {
            kid: None,
            bytes: Bytes::of(alloc, b"0123456789abcdef0123456789abcdef")?,
        },
    })
}

fn client(alloc: Global, name: &str, bearer: &str) -> Result<Client, Memory> {
    let mut aud = Vec::new(alloc);
    aud.push(Text::of(alloc, "https://rp.example")?)?;
    Ok(Client {
        name: Text::of(alloc, name)?,
        bearer: Text::of(alloc, bearer)?,
        aud: Items::of(aud),
    })
}

fn place(alloc: Global) -> Result<Place, Memory> {
    Ok(Place {
        host: Text::of(alloc, "gateway.example")?,
        port: 8443,
    })
}

fn routed(alloc: Global, request: &Request, rules: &Rules) -> Result<Bytes, Memory> {
    match call_of(alloc, request, rules) {
        Ok(call) => told(alloc, call),
        Err(refusal) => refused(alloc, &refusal),
    }
}

// The call is dropped by itself, so that no other function has a part of its many kinds.
fn told(alloc: Global, call: Call) -> Result<Bytes, Memory> {
    let answer = asked(alloc, &call);
    drop(call);
    answer
}

fn asked(alloc: Global, call: &Call) -> Result<Bytes, Memory> {
    match call {
        Call::Poll { client, stream, .. } => polled(alloc, client, stream),
        _ => valued(alloc, "call", &call_value(alloc, call)?),
    }
}

fn polled(alloc: Global, client: &Text, stream: &Text) -> Result<Bytes, Memory> {
    let value = json!(in alloc; {"client": client.as_str(), "stream": stream.as_str()})?;
    valued(alloc, "poll", &value)
}

fn refused(alloc: Global, refusal: &HttpRefusal) -> Result<Bytes, Memory>
    ensures { IfOk result (λ t. t ≡ spec.refused refusal.now) }
{
    match refusal {
        HttpRefusal::Path => bare(alloc, "path"),
        HttpRefusal::Method { allow } => named(alloc, "method", allow),
        HttpRefusal::Auth => bare(alloc, "auth"),
        HttpRefusal::Bad(place) => named(alloc, "bad", place),
        HttpRefusal::Memory => Err(Memory),
    }
}
