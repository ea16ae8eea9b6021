//! One push, from the token to what its response settles.

ghost use Rattle.std.specs.Prelude.{◌≡◌, ◌↔◌, None, true};
ghost use Rattle.std.specs.Option.{option_copied};
ghost use Rattle.sig_push.specs.Targets.{lacks_gateway, place_by};
ghost use Rattle.sig_push.specs.Pushed.{Counts, Follows, Hears, Sends};

use crate::PushFault;
use sig_delivery::{outcome_of, push_request};
use sig_dial::{AskFault, ask};
use sig_http::Response;
use sig_links::Side;
use sig_outside::Place;
use sig_terms::{Endpoint, Outcome, Rules, Token};
use std::alloc::Global;

// The kind of a push's body (RFC 8935, section 2.1).
const PUSH_KIND: &str = "application/secevent+jwt";

/// Pushes a token to its endpoint, and answers what the response settles (RFC 8935, sections 2.1 to 2.4).
///
/// The link leads to the endpoint's place, and to the gateway of the rules where the endpoint is `https`; it is given back
/// before this returns. `NoEndpoint` comes exactly where the token has none, and `NoGateway` exactly where its endpoint is
/// `https` and the rules have no gateway; in both nothing is dialled. `Dial` and `Link` each raise the side's count by one,
/// and any other answer leaves it. `NoResponse` comes where the push was written whole and the link gave no response to it.
pub fn push<S: Side>(
    alloc: Global,
    side: &mut S,
    rules: &Rules,
    token: &Token,
) -> Result<Outcome, PushFault>
    ensures no_endpoint { (result ≡ Err PushFault.NoEndpoint) ↔ (token.now.endpoint ≡ None) }
    ensures no_gateway { (result ≡ Err PushFault.NoGateway) ↔ (lacks_gateway rules.now token.now ≡ true) }

    // The link that was dialled, where one was: where it led, and what was written to it.
    ensures sends { Sends rules.now token.now (S.view side.old).sent (S.view side.new).sent result }

    // What is answered is what the response settles that this link gave.
    ensures hears { Hears (S.view side.old).ahead (S.view side.new).ahead result }
    ensures times { (S.view side.new).times ≡ (S.view side.old).times }
    ensures counts { Counts (S.view side.old).faults (S.view side.new).faults result }
{
    let Some(endpoint) = &token.endpoint else {
        return Err(PushFault::NoEndpoint);
    };
    let Some(place) = place_for(endpoint, &rules.gateway) else {
        return Err(PushFault::NoGateway);
    };
    let request = push_request(alloc, token, &rules.key)?;
    let host = &endpoint.place;
    let answer = ask(alloc, side, place, host, &request, PUSH_KIND, false);
    settled_by(alloc, answer)
}

// Where the link to an endpoint leads.
fn place_for<'a>(endpoint: &'a Endpoint, gateway: &'a Option<Place>) -> Option<&'a Place>
    ensures { option_copied result ≡ place_by gateway.now endpoint.now }
{
    if endpoint.secure {
        gateway.as_ref()
    } else {
        Some(&endpoint.place)
    }
}

// What the answer to a push settles.
fn settled_by(alloc: Global, answer: Result<Response, AskFault>) -> Result<Outcome, PushFault>
    ensures { Follows answer result }
{
    match answer {
        Ok(response) => Ok(outcome_of(alloc, &response)?),
        Err(AskFault::Dial) => Err(PushFault::Dial),
        Err(AskFault::Link) => Err(PushFault::Link),
        Err(AskFault::NoResponse) => Err(PushFault::NoResponse),
        Err(AskFault::Memory) => Err(PushFault::Memory),
    }
}
