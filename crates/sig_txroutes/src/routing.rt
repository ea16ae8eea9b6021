//! From a request to the call that it makes.

ghost use Rattle.std.specs.Prelude.{◌≡◌, ◌⊎◌, IfOk};
ghost use Rattle.sig_json.specs.Answers.{Answers};
ghost use Rattle.sig_calls.specs.Proper.{IsProperCall};
ghost use Rattle.sig_txroutes.specs.Calls as spec;

use crate::bearer::{client_by, shows};
use crate::body::object_in;
use crate::client::{body_call, query_call};
use crate::operator::{operator_call, operator_query};
use crate::route::{BodyCall, OperatorCall, OperatorQuery, QueryCall, Route, polled_in, route_for};
use sig_delivery::{BodyFault, read_ask};
use sig_http::{HttpRefusal, Request, query_value};
use sig_json::limits::REQUEST_BODY_BYTES;
use sig_json::{Bytes, Memory, Text};
use sig_terms::{Call, Rules};
use std::alloc::Global;

/// The call that a request makes of the transmitter, by the table of routes. It is a proper one.
///
/// The refusals come in this order: `Bad` at `body` where the body is longer than a request's may be; `Path` exactly where no
/// route is at the path, `Method` exactly where none at it has the method, `Auth` exactly where the bearer isn't the route's,
/// and `Bad` with the name of the query, or of the first member of the body, that is missing or wrong, `body` where it is no
/// JSON object; of a poll by RFC 8936, section 2.4. A client's routes take the bearer of any client, and make that client's
/// calls; of two clients with one bearer the first's. A route without a bearer reads neither query nor body.
pub fn call_of(alloc: Global, request: &Request, rules: &Rules) -> Result<Call, HttpRefusal>
    ensures answers { Answers HttpRefusal.Memory result (spec.call_of request.now rules.now) }
    ensures proper { IfOk result IsProperCall }
{
    if is_long(&request.body) {
        return Err(too_long(alloc));
    }
    routed(alloc, request, rules)
}

// Whether a body is longer than a request's may be.
fn is_long(body: &Bytes) -> bool
    ensures { result ≡ spec.is_long body.now }
{
    body.as_slice().len() > REQUEST_BODY_BYTES
}

// The refusal of such a body.
fn too_long(alloc: Global) -> HttpRefusal
    ensures { (result ≡ HttpRefusal.Memory) ⊎ (result ≡ spec.too_long) }
{
    match Text::of(alloc, "body") {
        Ok(place) => HttpRefusal::Bad(place),
        Err(Memory) => HttpRefusal::Memory,
    }
}

// What a request asks, whatever its size.
#[tactic(auto, unfolding(crate::specs::Calls::routed_of))]
fn routed(alloc: Global, request: &Request, rules: &Rules) -> Result<Call, HttpRefusal>
    ensures { Answers HttpRefusal.Memory result (spec.routed_of request.now rules.now) }
{
    match route_for(alloc, request.method.as_str(), request.path.as_str())? {
        Route::Metadata => Ok(Call::Metadata),
        Route::Query(route) => by_query(alloc, route, request, rules),
        Route::Body(route) => by_body(alloc, route, request, rules),
        Route::Poll => by_poll(alloc, request, rules),
        Route::Operator(route) => by_operator(alloc, route, request, rules),
        Route::OperatorQuery(route) => by_operator_query(alloc, route, request, rules),
    }
}

fn by_query(
    alloc: Global,
    route: QueryCall,
    request: &Request,
    rules: &Rules,
) -> Result<Call, HttpRefusal>
    ensures { Answers HttpRefusal.Memory result (spec.by_query route request.now rules.now) }
{
    let client = client_by(alloc, rules, request)?;
    let stream = query_value(alloc, request.query.as_str(), "stream_id")?;
    query_call(alloc, route, client, stream)
}

fn by_body(
    alloc: Global,
    route: BodyCall,
    request: &Request,
    rules: &Rules,
) -> Result<Call, HttpRefusal>
    ensures { Answers HttpRefusal.Memory result (spec.by_body route request.now rules.now) }
{
    let client = client_by(alloc, rules, request)?;
    let body = object_in(alloc, request.body.as_slice())?;
    let gateway = rules.gateway.is_some();
    body_call(alloc, route, gateway, client, &body)
}

fn by_poll(alloc: Global, request: &Request, rules: &Rules) -> Result<Call, HttpRefusal>
    ensures { Answers HttpRefusal.Memory result (spec.by_poll request.now rules.now) }
{
    let client = client_by(alloc, rules, request)?;
    let stream = Text::of(alloc, polled_in(request.path.as_str()))?;
    poll(alloc, client, stream, request.body.as_slice())
}

// The poll of a stream with this body.
fn poll(alloc: Global, client: Text, stream: Text, body: &[u8]) -> Result<Call, HttpRefusal>
    ensures { Answers HttpRefusal.Memory result (spec.poll_of client stream body.now) }
{
    match read_ask(alloc, body) {
        Ok(ask) => Ok(Call::Poll {
            client,
            stream,
            ask,
        }),
        Err(BodyFault::Bad(place)) => Err(HttpRefusal::Bad(place)),
        Err(BodyFault::Memory) => Err(HttpRefusal::Memory),
    }
}

fn by_operator(
    alloc: Global,
    route: OperatorCall,
    request: &Request,
    rules: &Rules,
) -> Result<Call, HttpRefusal>
    ensures { Answers HttpRefusal.Memory result (spec.by_operator route request.now rules.now) }
{
    if !shows(&request.bearer, &rules.operator) {
        return Err(HttpRefusal::Auth);
    }
    let body = object_in(alloc, request.body.as_slice())?;
    operator_call(alloc, route, &body)
}

fn by_operator_query(
    alloc: Global,
    route: OperatorQuery,
    request: &Request,
    rules: &Rules,
) -> Result<Call, HttpRefusal>
    ensures { Answers HttpRefusal.Memory result (spec.by_operator_query route request.now rules.now) }
{
    if shows(&request.bearer, &rules.operator) {
        return operator_query(alloc, route, request.query.as_str());
    }
    Err(HttpRefusal::Auth)
}
