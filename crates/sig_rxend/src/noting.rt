//! What is told of a link that was served.

ghost use Rattle.std.specs.Prelude.{◌≡◌, ℕ, List, []};
ghost use Rattle.sig_link.specs.Moment.{desk_of, moment};
ghost use Rattle.sig_link.specs.Serving.{Serves};
ghost use Rattle.sig_serving.specs.Line.{seen};

use sig_link::{End, LinkLog};
use sig_links::{Link, Side};
use sig_notes::{refused_push, tell, tell_end};
use sig_rxnode::{RxAnswer, RxCall, RxTurn};
use std::alloc::Global;
use std::sync::Wait;

// The topic of tokens whose bearer names nobody.
const UNKNOWN: &str = "push of nobody";

/// Serves a link as `sig_link` does, and then tells which tokens were refused, and by which fault it ended, if by one.
pub fn serve_link<E: End<Turn = RxTurn>, R: Wait, L: Link, S: Side>(
    alloc: Global,
    rt: &R,
    taker: &mut E::Taker,
    rules: &E::Rules,
    link: u32,
    stream: &mut L,
    side: &mut S,
) -> LinkLog<RxTurn>
    ensures link { result.link ≡ link }
    ensures serves { let came = seen L.left L.written L.Source.faults L.Sink.faults stream.old in
        let left = seen L.left L.written L.Source.faults L.Sink.faults stream.new in
        (kept : List ℕ) × Serves E.meaning rules.now link result.end
        (moment [] came (desk_of (S.view side.old) (E.told taker.old) []))
        (moment kept left (desk_of (S.view side.new) (E.told taker.new) result.turns)) }
    ensures place { L.dialled stream.new ≡ L.dialled stream.old }
{
    let log = sig_link::serve_link::<E, R, L, S>(alloc, rt, taker, rules, link, stream, side);
    note_log(alloc, side, &log);
    log
}

// Tells what was refused on a link, and how it ended.
fn note_log<S: Side>(alloc: Global, side: &mut S, log: &LinkLog<RxTurn>)
    ensures { S.view side.new ≡ S.view side.old }
{
    for turn in log.turns.as_slice() {
        note_turn(alloc, side, turn);
    }
    tell_end(alloc, side, log.end);
}

// Tells that a pushed token was refused: each of a bearer that is known, and of the others one a minute.
fn note_turn<S: Side>(alloc: Global, side: &mut S, turn: &RxTurn)
    ensures { S.view side.new ≡ S.view side.old }
{
    if let (RxCall::Token { principal, .. }, Ok(RxAnswer::Refused { code, spot })) = (
        &turn.call,
        &turn.result,
    ) {
        let topic = if principal.is_some() {
            None
        } else {
            Some(UNKNOWN)
        };
        let line = refused_push(alloc, principal.as_ref(), code.as_str(), spot.as_str());
        tell(side, topic, line);
    }
}
