//! One attempt to bring what a stream offers.

ghost use Rattle.std.specs.Prelude.{◌≡◌, ◌∷◌, [], ◌++◌, List, ℕ, false};
ghost use Rattle.sig_tick.specs.Trying.{Attempted, AttemptedHanded, AttemptedTokens, attempt_for};
ghost use Rattle.sig_txnode.specs.declared.turn.Turn.{Turn};

use crate::bringing::{are_settled, bring};
use crate::listing::last_ended;
use sig_journal::NodeFault;
use sig_json::{Memory, Text};
use sig_links::Side;
use sig_round::{TurnLog, hand, tokens_handed};
use sig_terms::{Rules, Token};
use sig_txnode::Taker;
use std::alloc::Global;
use std::sync::Wait;

/// What came of an attempt to bring what a stream offered.
#[derive(Clone, Copy)]
pub struct Trial {
    /// How many tokens were handed; where it is 0 there was no attempt.
    pub tokens: u64,
    /// Whether each of them was settled; false where there was no attempt.
    pub good: bool,
    /// How it ended: with the fault of the turn that was refused, or out of memory; well, where only a push had no answer.
    pub end: Result<(), NodeFault>,
}

impl Trial {
    // No attempt.
    fn none(end: Result<(), NodeFault>) -> Trial
        ensures { result ≡ record { tokens = 0; good = false; end = end } }
    {
        Trial {
            tokens: 0,
            good: false,
            end,
        }
    }
}

/// Asks what a stream offers, in a turn, and brings it, for which the side has a bound in time: each token is pushed and settled
/// as in a round, until one has no answer.
pub fn attempt<R: Wait, K: Taker, S: Side>(
    alloc: Global,
    rt: &R,
    taker: &mut K,
    rules: &Rules,
    stream: &Text,
    side: &mut S,
    log: &mut TurnLog,
) -> Trial
    ensures attempted { Attempted rules.now (record { link = log.old.link; now = log.old.now }) stream.now (S.view side.old) (S.view side.new)
        log.old.turns.items log.new.turns.items (K.told taker.old) (K.told taker.new)
        (attempt_for stream.now (record { link = log.old.link; now = log.old.now }) result) result.end }
    ensures link { log.new.link ≡ log.old.link }
    ensures now { log.new.now ≡ log.old.now }
{
    match hand(alloc, rt, taker, stream, log) {
        Ok(()) => attempt_handed(alloc, rt, taker, rules, side, log),
        Err(Memory) => Trial::none(Err(NodeFault::Memory)),
    }
}

// Brings what the last turn handed.
fn attempt_handed<R: Wait, K: Taker, S: Side>(
    alloc: Global,
    rt: &R,
    taker: &mut K,
    rules: &Rules,
    side: &mut S,
    log: &mut TurnLog,
) -> Trial
    ensures attempted { (stream : List ℕ) (earlier : List Turn) (turn : Turn) → log.old.turns.items ≡ earlier ++ turn ∷ []
        → AttemptedHanded rules.now (record { link = log.old.link; now = log.old.now }) stream turn.result (S.view side.old) (S.view side.new)
        log.old.turns.items log.new.turns.items (K.told taker.old) (K.told taker.new)
        (attempt_for stream (record { link = log.old.link; now = log.old.now }) result) result.end }
    ensures link { log.new.link ≡ log.old.link }
    ensures now { log.new.now ≡ log.old.now }
{
    if let Err(fault) = last_ended(log.turns.as_slice()) {
        return Trial::none(Err(fault));
    }
    match tokens_handed(alloc, log.turns.as_slice()) {
        Ok(tokens) => attempt_tokens(alloc, rt, taker, rules, tokens.as_slice(), side, log),
        Err(Memory) => Trial::none(Err(NodeFault::Memory)),
    }
}

// Brings these tokens.
fn attempt_tokens<R: Wait, K: Taker, S: Side>(
    alloc: Global,
    rt: &R,
    taker: &mut K,
    rules: &Rules,
    tokens: &[Token],
    side: &mut S,
    log: &mut TurnLog,
) -> Trial
    ensures attempted { (stream : List ℕ) → AttemptedTokens rules.now (record { link = log.old.link; now = log.old.now }) stream tokens.now (S.view side.old) (S.view side.new)
        log.old.turns.items log.new.turns.items (K.told taker.old) (K.told taker.new)
        (attempt_for stream (record { link = log.old.link; now = log.old.now }) result) result.end }
    ensures link { log.new.link ≡ log.old.link }
    ensures now { log.new.now ≡ log.old.now }
{
    if tokens.is_empty() {
        return Trial::none(Ok(()));
    }
    let before = log.turns.len();
    side.begin_round();
    let end = bring(alloc, rt, taker, rules, tokens, side, log);
    Trial {
        tokens: tokens.len() as u64,
        good: are_settled(tokens.len(), &log.turns[before..]),
        end,
    }
}
