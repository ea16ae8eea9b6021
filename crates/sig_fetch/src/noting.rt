//! What is told of a round.

ghost use Rattle.std.specs.Prelude.{◌≡◌, Some};
ghost use Rattle.sig_dial.specs.Asked as dial;
ghost use Rattle.sig_fetch.specs.Asks as asks;
ghost use Rattle.sig_fetch.specs.Fetching.{Counts, Goes};
ghost use Rattle.sig_fetch.specs.Turns.{Halts};
ghost use Rattle.sig_http.specs.Spelling.{request_spelling};

use crate::{FetchFault, rounding};
use sig_dial::AskFault;
use sig_http::{Request, Response};
use sig_links::Side;
use sig_notes::{peer_status, refused_listed, tell};
use sig_outside::{Disk, Place};
use sig_rxnode::{Peer, RxAnswer, RxCall, RxNode, RxTurn};
use sig_terms::PollAsk;
use std::alloc::Global;

/// Makes a round as `rounding` does, and then tells which tokens were refused in it.
pub fn round<D: Disk, S: Side>(
    alloc: Global,
    node: &mut RxNode<D>,
    side: &mut S,
    peer: &Peer,
    place: &Place,
    what: &PollAsk,
    turns: &mut Vec<RxTurn>,
) -> Result<bool, FetchFault>
    requires place { asks.place_of peer.now ≡ Some place.now }
    ensures goes { Goes peer.now what.now (S.view side.old).ahead (S.view side.new).ahead (S.view side.old).sent (S.view side.new).sent turns.old.items turns.new.items node.old node.new result }
    ensures halts { Halts D.told D.faults node.old node.new result }
    ensures times { (S.view side.new).times ≡ (S.view side.old).times }
    ensures counts { Counts (S.view side.old).faults (S.view side.new).faults result }
{
    let made = rounding::round(alloc, node, side, peer, place, what, turns);
    note_turns(alloc, side, turns.as_slice());
    made
}

// Tells which tokens were refused in these turns.
fn note_turns<S: Side>(alloc: Global, side: &mut S, turns: &[RxTurn])
    ensures { S.view side.new ≡ S.view side.old }
{
    for turn in turns {
        if let (RxCall::Token { named, .. }, Ok(RxAnswer::Refused { code, .. })) = (
            &turn.call,
            &turn.result,
        ) {
            tell(
                side,
                None,
                refused_listed(alloc, named.as_ref(), code.as_str()),
            );
        }
    }
}

/// Asks as `sig_dial` does, and tells the status of a response that has no page.
pub fn ask<S: Side>(
    alloc: Global,
    side: &mut S,
    to: &Place,
    host: &Place,
    request: &Request,
    kind: &str,
    language: bool,
) -> Result<Response, AskFault>
    ensures sends { dial.Sends to.now (request_spelling host.now request.now kind.now language) (S.view side.old).sent (S.view side.new).sent result }
    ensures hears { dial.Hears (S.view side.old).ahead (S.view side.new).ahead result }
    ensures times { (S.view side.new).times ≡ (S.view side.old).times }
    ensures counts { dial.Counts (S.view side.old).faults (S.view side.new).faults result }
{
    let answer = sig_dial::ask(alloc, side, to, host, request, kind, language);
    note_status(alloc, side, &answer);
    answer
}

// Tells the status of a response that has no page.
fn note_status<S: Side>(alloc: Global, side: &mut S, answer: &Result<Response, AskFault>)
    ensures { S.view side.new ≡ S.view side.old }
{
    if let Ok(response) = answer {
        if response.status != 200 {
            tell(side, None, peer_status(alloc, response.status));
        }
    }
}
