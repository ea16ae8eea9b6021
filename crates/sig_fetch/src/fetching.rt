//! A fetch, round after round.

ghost use Rattle.std.specs.Prelude.{◌≡◌, ◌↔◌, Some, true, IfOk};
ghost use Rattle.sig_json.specs.Answers.{result_map};
ghost use Rattle.sig_rxnode.specs.Holding.{IsHolding};
ghost use Rattle.sig_rxnode.specs.Node.{IsHistory};
ghost use Rattle.sig_fetch.specs.Asks.{lacks_gateway, place_of};
ghost use Rattle.sig_fetch.specs.Fetching.{Counts, Fetches, Tallies};
ghost use Rattle.sig_fetch.specs.Turns.{Halts};
ghost use Rattle.sig_fetch.specs.declared.fetched.Fetched.{Fetched};

use crate::asking::{ask_after, place_of};
use crate::counting::counted_on;
use crate::noting::round;
use crate::{FetchFault, Fetched};
use sig_links::Side;
use sig_outside::{Disk, Place};
use sig_rxnode::{Peer, RxNode};
use std::alloc::Global;

/// Fetches what a peer has for this receiver, in so many rounds at most (RFC 8936, sections 2.4 and 2.5).
///
/// Each round polls the peer over a link of its own, which leads to the peer's place, or to its gateway where it is `https`;
/// the poll acknowledges the tokens that the round before accepted or had seen, and reports those that it refused. Then the
/// node takes each token that the page lists, in order, under its name and for the issuer that the peer speaks for. It ends
/// well exactly after a page that lists nothing or after so many rounds.
///
/// `NoGateway` comes exactly where the peer is `https` and has no gateway, and then nothing is done. `Dial` and `Link` each
/// raise the side's count by one, and any other answer leaves it. `Peer` comes exactly where the last response isn't a page,
/// or where there is none, unless memory ran out. `Store` comes only where the node's disk failed, in this call or before;
/// `Full` exactly where the next token would take the journal past 2^62. After any fault what was taken before it stays.
pub fn fetch<D: Disk, S: Side>(
    alloc: Global,
    node: &mut RxNode<D>,
    side: &mut S,
    peer: &Peer,
    rounds: u64,
) -> Result<Fetched, FetchFault>
    ensures no_gateway { (result ≡ Err FetchFault.NoGateway) ↔ (lacks_gateway peer.now ≡ true) }

    // The rounds: what each asked, how it was answered and what was taken, over which links.
    ensures fetches { Fetches peer.now rounds (S.view side.old).ahead (S.view side.new).ahead (S.view side.old).sent (S.view side.new).sent node.old node.new (result_map (λ (f : Fetched). f.rounds) result) }
    ensures tallies { IfOk result (Tallies node.old node.new) }

    // Why it ended with a fault.
    ensures halts { Halts D.told D.faults node.old node.new result }
    ensures counts { Counts (S.view side.old).faults (S.view side.new).faults result }
    ensures times { (S.view side.new).times ≡ (S.view side.old).times }

    // What the node is afterwards.
    ensures holds { IsHolding D.told D.seen D.may_leave node.new.kept }
    ensures history { IsHistory node.new }
{
    holds(node);
    let Some(place) = place_of(peer) else {
        return Err(FetchFault::NoGateway);
    };
    let made = all_rounds(alloc, node, side, peer, place, rounds);
    holds(node);
    made
}

// Makes so many rounds at most, each after the turns of the one before, and answers how many it made and what it counted.
fn all_rounds<D: Disk, S: Side>(
    alloc: Global,
    node: &mut RxNode<D>,
    side: &mut S,
    peer: &Peer,
    place: &Place,
    rounds: u64,
) -> Result<Fetched, FetchFault>
    requires place { place_of peer.now ≡ Some place.now }
    ensures fetches { Fetches peer.now rounds (S.view side.old).ahead (S.view side.new).ahead (S.view side.old).sent (S.view side.new).sent node.old node.new (result_map (λ (f : Fetched). f.rounds) result) }
    ensures tallies { IfOk result (Tallies node.old node.new) }
    ensures reached { result ≡ Err FetchFault.NoGateway → ⊥ }
    ensures halts { Halts D.told D.faults node.old node.new result }
    ensures counts { Counts (S.view side.old).faults (S.view side.new).faults result }
    ensures times { (S.view side.new).times ≡ (S.view side.old).times }
{
    let mut fetched = Fetched {
        rounds: 0,
        accepted: 0,
        seen: 0,
        refused: 0,
    };
    // Those of the round before, which the next one tells of: no others are kept.
    let mut turns = Vec::new(alloc);
    for made in 0..rounds {
        let ask = ask_after(alloc, turns.as_slice())?;
        turns.clear();
        let listed = round(alloc, node, side, peer, place, &ask, &mut turns)?;
        fetched = counted_on(fetched, turns.as_slice(), made + 1, node.turn_count());
        if !listed {
            return Ok(fetched);
        }
    }
    Ok(fetched)
}

// What a node holds rests on what holds of every node.
fn holds<D: Disk>(node: &RxNode<D>)
    ensures holds { IsHolding D.told D.seen D.may_leave node.now.kept }
    ensures history { IsHistory node.now }
{
    let _ = node.broken_at();
}
