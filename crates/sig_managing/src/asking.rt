//! What a transmitter is asked, and what its answer comes to.

ghost use Rattle.std.specs.Prelude.{◌≡◌, ◌++◌, IfOk, OnErr, codes, false};
ghost use Rattle.std.specs.Option.{option_copied};
ghost use Rattle.sig_dial.specs.Asked as dial;
ghost use Rattle.sig_http.specs.Spelling.{request_spelling};
ghost use Rattle.sig_json.specs.Answers.{result_map};
ghost use Rattle.sig_managing.specs.Asks as spec;
ghost use Rattle.sig_managing.specs.Exchanges.{IsTaken};

use crate::DriveFault;
use sig_declared::Provider;
use sig_dial::AskFault;
use sig_http::{Request, Response};
use sig_json::{Memory, Text};
use sig_links::Side;
use sig_manager::{ManageFault, Manager};
use sig_notes::{peer_status, tell};
use sig_outside::Place;
use std::alloc::Global;

// The kind of a request's body (OpenID Shared Signals Framework 1.0, section 8.1.1).
const BODY_KIND: &str = "application/json";

/// Where the links to a transmitter lead.
pub fn place_of(provider: &Provider) -> Option<&Place>
    ensures { option_copied result ≡ spec.place_of provider.now }
{
    if provider.endpoint.secure {
        provider.gateway.as_ref()
    } else {
        Some(&provider.endpoint.place)
    }
}

/// The request with the bearer that the transmitter knows (RFC 6750, section 2.1).
pub fn shown(alloc: Global, provider: &Provider, request: Request) -> Result<Request, Memory>
    ensures { IfOk result (λ r. r ≡ spec.shown provider.now request) }
{
    let mut request = request;
    request.bearer = Some(authorization(alloc, &provider.bearer)?);
    Ok(request)
}

fn authorization(alloc: Global, bearer: &Text) -> Result<Text, Memory>
    ensures { IfOk result (λ text. text ≡ codes "Bearer " ++ bearer.now) }
{
    let mut text = String::from_str(alloc, "Bearer ")?;
    text.push_str(bearer.as_str())?;
    Ok(Text::from_string(text))
}

/// Asks as `sig_dial` does, over a link to this place.
pub fn ask<S: Side>(
    alloc: Global,
    side: &mut S,
    to: &Place,
    host: &Place,
    request: &Request,
) -> Result<Response, AskFault>
    ensures sends { dial.Sends to.now (request_spelling host.now request.now spec.body_kind false) (S.view side.old).sent (S.view side.new).sent result }
    ensures hears { dial.Hears (S.view side.old).ahead (S.view side.new).ahead result }
    ensures times { (S.view side.new).times ≡ (S.view side.old).times }
    ensures counts { dial.Counts (S.view side.old).faults (S.view side.new).faults result }
{
    sig_dial::ask(alloc, side, to, host, request, BODY_KIND, false)
}

/// Takes what a request was answered. After a fault what is left to ask is as before.
pub fn hear(
    alloc: Global,
    manager: &mut Manager,
    answer: &Result<Response, AskFault>,
) -> Result<(), DriveFault>
    ensures taken { IsTaken manager.old answer.now (result_map (λ _. manager.new) result) }
    ensures err { OnErr result (manager.new ≡ manager.old) }
{
    match answer {
        Ok(response) => match manager.hear(alloc, response) {
            Ok(()) => Ok(()),
            Err(ManageFault::Peer(place)) => Err(DriveFault::Peer(place)),
            Err(ManageFault::Memory) => Err(DriveFault::Memory),
        },
        Err(AskFault::Dial) => Err(DriveFault::Dial),
        Err(AskFault::Link) => Err(DriveFault::Link),
        Err(AskFault::NoResponse) => Err(DriveFault::Peer(Text::of(alloc, "http")?)),
        Err(AskFault::Memory) => Err(DriveFault::Memory),
    }
}

/// Tells the status of a response that can't be used.
pub fn note_status<S: Side>(
    alloc: Global,
    side: &mut S,
    answer: &Result<Response, AskFault>,
    heard: &Result<(), DriveFault>,
)
    ensures { S.view side.new ≡ S.view side.old }
{
    if let (Ok(response), Err(DriveFault::Peer(_))) = (answer, heard) {
        tell(side, None, peer_status(alloc, response.status));
    }
}
