//! What is told of a link that was served.

ghost use Rattle.std.specs.Prelude.{◌≡◌, ℕ, List, []};
ghost use Rattle.sig_link.specs.Moment.{desk_of, moment};
ghost use Rattle.sig_link.specs.Serving.{Serves};
ghost use Rattle.sig_serving.specs.Line.{seen};

use sig_link::{End, LinkLog};
use sig_links::{Link, Side};
use sig_notes::{refused_listed, tell, tell_end};
use sig_terms::{Answer, Call, Reported};
use sig_txnode::Turn;
use std::alloc::Global;
use std::sync::Wait;

/// Serves a link as `sig_link` does, and then tells which tokens its polls reported as faulty, and by which fault it ended, if by
/// one.
pub fn serve_link<E: End<Turn = Turn>, R: Wait, L: Link, S: Side>(
    alloc: Global,
    rt: &R,
    taker: &mut E::Taker,
    rules: &E::Rules,
    link: u32,
    stream: &mut L,
    side: &mut S,
) -> LinkLog<Turn>
    ensures link { result.link ≡ link }
    ensures serves { let came = seen L.left L.written L.Source.faults L.Sink.faults stream.old in
        let left = seen L.left L.written L.Source.faults L.Sink.faults stream.new in
        (kept : List ℕ) × Serves E.meaning rules.now link result.end
        (moment [] came (desk_of (S.view side.old) (E.told taker.old) []))
        (moment kept left (desk_of (S.view side.new) (E.told taker.new) result.turns)) }
    ensures place { L.dialled stream.new ≡ L.dialled stream.old }
{
    let log = sig_link::serve_link::<E, R, L, S>(alloc, rt, taker, rules, link, stream, side);
    note_log(alloc, side, &log);
    log
}

// Tells what the polls of a link reported, and how it ended.
fn note_log<S: Side>(alloc: Global, side: &mut S, log: &LinkLog<Turn>)
    ensures { S.view side.new ≡ S.view side.old }
{
    for turn in log.turns.as_slice() {
        if let (Call::Poll { ask, .. }, Ok(Answer::Sets { .. })) = (&turn.call, &turn.result) {
            note_errors(alloc, side, ask.errors.as_slice());
        }
    }
    tell_end(alloc, side, log.end);
}

// Tells which tokens a poll reported as faulty.
fn note_errors<S: Side>(alloc: Global, side: &mut S, errors: &[Reported])
    ensures { S.view side.new ≡ S.view side.old }
{
    for error in errors {
        tell(
            side,
            None,
            refused_listed(alloc, Some(&error.jti), error.code.as_str()),
        );
    }
}
