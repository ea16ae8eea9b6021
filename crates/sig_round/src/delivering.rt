//! The pushes of a round, and the turns that settle them.

ghost use Rattle.std.specs.Prelude.{◌≡◌, [], ◌∷◌, IfOk, OnErr, OnOk};
ghost use Rattle.sig_round.specs.Delivered.{Delivered};
ghost use Rattle.sig_round.specs.Turns.{Adds, AddsTurnOf};

use crate::TurnLog;
use crate::noting::push;
use sig_json::Memory;
use sig_links::Side;
use sig_push::PushFault;
use sig_terms::{Call, Outcome, Rules, Token};
use sig_txnode::Taker;
use std::alloc::Global;
use std::sync::Wait;

/// Pushes these tokens one after another, and settles each by what its push settles.
pub fn deliver_all<R: Wait, K: Taker, S: Side>(
    alloc: Global,
    rt: &R,
    taker: &mut K,
    rules: &Rules,
    tokens: &[Token],
    side: &mut S,
    log: &mut TurnLog,
) -> Result<(), PushFault>
    ensures delivered { Delivered rules.now (record { link = log.old.link; now = log.old.now }) tokens.now (S.view side.old) (S.view side.new) log.old.turns.items log.new.turns.items (K.told taker.old) (K.told taker.new) result }
    ensures link { log.new.link ≡ log.old.link }
    ensures now { log.new.now ≡ log.old.now }
{
    for token in tokens {
        deliver(alloc, rt, taker, rules, token, side, log)?;
    }
    Ok(())
}

/// Pushes a token, and settles it by what its push settles, in a turn.
pub fn deliver<R: Wait, K: Taker, S: Side>(
    alloc: Global,
    rt: &R,
    taker: &mut K,
    rules: &Rules,
    token: &Token,
    side: &mut S,
    log: &mut TurnLog,
) -> Result<(), PushFault>
    ensures delivered { Delivered rules.now (record { link = log.old.link; now = log.old.now }) (token.now ∷ []) (S.view side.old) (S.view side.new) log.old.turns.items log.new.turns.items (K.told taker.old) (K.told taker.new) result }
    ensures link { log.new.link ≡ log.old.link }
    ensures now { log.new.now ≡ log.old.now }
{
    let outcome = push(alloc, side, rules, token)?;
    match settle(alloc, rt, taker, token, outcome, log) {
        Ok(()) => Ok(()),
        Err(Memory) => Err(PushFault::Memory),
    }
}

// Settles a token by what its push settles, in a turn.
fn settle<R: Wait, K: Taker>(
    alloc: Global,
    rt: &R,
    taker: &mut K,
    token: &Token,
    outcome: Outcome,
    log: &mut TurnLog,
) -> Result<(), Memory>
    ensures asked { OnOk result (AddsTurnOf (record { link = log.old.link; now = log.old.now }) (Call.Settle token.now.stream token.now.number outcome) log.old.turns.items log.new.turns.items (K.told taker.old) (K.told taker.new)) }
    ensures memory { OnErr result (Adds [] log.old.turns.items log.new.turns.items (K.told taker.old) (K.told taker.new)) }
    ensures link { log.new.link ≡ log.old.link }
    ensures now { log.new.now ≡ log.old.now }
{
    match settle_call(alloc, token, outcome) {
        Ok(call) => log.ask(rt, taker, call),
        Err(Memory) => Err(Memory),
    }
}

// The call that settles a token.
fn settle_call(alloc: Global, token: &Token, outcome: Outcome) -> Result<Call, Memory>
    ensures { IfOk result (λ call. call ≡ Call.Settle token.now.stream token.now.number outcome) }
{
    let stream = token.stream.copy(alloc)?;
    Ok(Call::Settle {
        stream,
        number: token.number,
        outcome,
    })
}
