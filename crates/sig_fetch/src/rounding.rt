//! One round of a fetch.

ghost use Rattle.std.specs.Prelude.{◌≡◌, Some};
ghost use Rattle.sig_fetch.specs.Asks as asks;
ghost use Rattle.sig_fetch.specs.Fetching.{Counts, Goes};
ghost use Rattle.sig_fetch.specs.Rounds as spec;
ghost use Rattle.sig_fetch.specs.Turns.{Halts};

use crate::FetchFault;
use crate::asking::{poll_request, reports};
use crate::noting::ask;
use crate::reading::page_in;
use crate::taking::take_all;
use sig_delivery::Listed;
use sig_links::Side;
use sig_outside::{Disk, Place};
use sig_rxnode::{Peer, RxNode, RxTurn};
use sig_terms::PollAsk;
use std::alloc::Global;

// The kind of a poll's body (RFC 8936, section 2.4).
const POLL_KIND: &str = "application/json";

/// Makes one round: asks this over a link to this place, takes what the page lists, and puts its turns last. It answers whether
/// the page lists anything.
pub fn round<D: Disk, S: Side>(
    alloc: Global,
    node: &mut RxNode<D>,
    side: &mut S,
    peer: &Peer,
    place: &Place,
    what: &PollAsk,
    turns: &mut Vec<RxTurn>,
) -> Result<bool, FetchFault>
    requires place { asks.place_of peer.now ≡ Some place.now }
    ensures goes { Goes peer.now what.now (S.view side.old).ahead (S.view side.new).ahead (S.view side.old).sent (S.view side.new).sent turns.old.items turns.new.items node.old node.new result }
    ensures halts { Halts D.told D.faults node.old node.new result }
    ensures times { (S.view side.new).times ≡ (S.view side.old).times }
    ensures counts { Counts (S.view side.old).faults (S.view side.new).faults result }
{
    let request = poll_request(alloc, peer, what)?;
    let host = &peer.endpoint.place;
    let english = reports(what.errors.as_slice());
    let answer = ask(alloc, side, place, host, &request, POLL_KIND, english);
    let page = page_in(alloc, answer)?;
    take_all(alloc, node, peer, page.tokens.as_slice(), turns)?;
    Ok(lists(page.tokens.as_slice()))
}

// Whether a page lists anything.
fn lists(tokens: &[Listed]) -> bool
    ensures { result ≡ spec.lists tokens.now }
{
    !tokens.is_empty()
}
