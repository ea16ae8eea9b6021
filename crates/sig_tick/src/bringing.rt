//! How an attempt brings the tokens that it was handed.

ghost use Rattle.std.specs.Prelude.{◌≡◌};
ghost use Rattle.std.specs.List.{list_all};
ghost use Rattle.sig_tick.specs.Bringing as spec;
ghost use Rattle.sig_tick.specs.Bringing.{Brought};

use crate::listing::last_ended;
use sig_journal::NodeFault;
use sig_links::Side;
use sig_push::PushFault;
use sig_round::{TurnLog, deliver, note_late};
use sig_terms::{Call, Outcome, Rules, Token};
use sig_txnode::{Taker, Turn};
use std::alloc::Global;
use std::sync::Wait;

/// Pushes these tokens one after another, and settles each by what its push settles, in a turn.
///
/// It ends at the first push that has no answer, which is no fault of the tick unless memory ran out; and at the first turn
/// that is refused, with that turn's fault. The side tells how many tokens are late, where some are.
pub fn bring<R: Wait, K: Taker, S: Side>(
    alloc: Global,
    rt: &R,
    taker: &mut K,
    rules: &Rules,
    tokens: &[Token],
    side: &mut S,
    log: &mut TurnLog,
) -> Result<(), NodeFault>
    ensures brought { Brought rules.now (record { link = log.old.link; now = log.old.now }) tokens.now (S.view side.old) (S.view side.new) log.old.turns.items log.new.turns.items (K.told taker.old) (K.told taker.new) result }
    ensures link { log.new.link ≡ log.old.link }
    ensures now { log.new.now ≡ log.old.now }
{
    for token in tokens {
        match deliver(alloc, rt, taker, rules, token, side, log) {
            Ok(()) => last_ended(log.turns.as_slice())?,
            Err(fault) => {
                note_late(alloc, side, tokens, log.turns.as_slice(), Err(fault));
                return end_by(fault);
            }
        }
    }
    note_late(alloc, side, tokens, log.turns.as_slice(), Ok(()));
    Ok(())
}

// What the end of an attempt by a push without an answer is to the tick.
fn end_by(fault: PushFault) -> Result<(), NodeFault>
    ensures { result ≡ spec.end_by fault }
{
    match fault {
        PushFault::Memory => Err(NodeFault::Memory),
        PushFault::NoEndpoint
        | PushFault::NoGateway
        | PushFault::Dial
        | PushFault::Link
        | PushFault::NoResponse => Ok(()),
    }
}

/// Whether so many tokens were settled in these turns, one in each.
pub fn are_settled(count: usize, turns: &[Turn]) -> bool
    ensures { result ≡ spec.are_settled count turns.now }
{
    turns.len() == count && all_settling(turns)
}

// Whether each of these turns settled its token.
fn all_settling(turns: &[Turn]) -> bool
    ensures { result ≡ list_all spec.is_settling turns.now }
{
    turns.iter().all(|turn| is_settling(turn))
}

// Whether a turn settled its token.
fn is_settling(turn: &Turn) -> bool
    ensures { result ≡ spec.is_settling turn.entry.now }
{
    settles_by(&turn.call) && turn.result.is_ok()
}

fn settles_by(call: &Call) -> bool
    ensures { result ≡ spec.settles_by call.now }
{
    match call {
        Call::Settle { outcome, .. } => is_final(outcome),
        _ => false,
    }
}

fn is_final(outcome: &Outcome) -> bool
    ensures { result ≡ spec.is_final outcome.now }
{
    match outcome {
        Outcome::Accepted | Outcome::Reported { .. } => true,
        Outcome::Keep => false,
    }
}
