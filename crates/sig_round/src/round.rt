//! Rounds, each from its Hand turn on.

ghost use Rattle.std.specs.Prelude.{◌≡◌, [], ◌∷◌, ◌++◌, List, IfOk, OnErr, OnOk, is_err};
ghost use Rattle.sig_round.specs.Delivered.{Delivered};
ghost use Rattle.sig_round.specs.Rounds as handed;
ghost use Rattle.sig_round.specs.Rounds.{AllRounded, Attempted, PassedOrAttempted, Rounded};
ghost use Rattle.sig_round.specs.Turns.{Adds, AddsTurnOf};
ghost use Rattle.sig_txnode.specs.declared.turn.Turn.{Turn};

use crate::delivering::deliver_all;
use crate::noting::note_late;
use crate::{Passing, TurnLog};
use sig_json::limits::TOKENS_PER_PAGE;
use sig_json::{Items, Memory, Text, copy_items};
use sig_links::Side;
use sig_notes::{push_good, tell};
use sig_push::PushFault;
use sig_terms::{Answer, Call, Rules, Token};
use sig_txnode::{Taker, Turn};
use std::alloc::Global;
use std::sync::Wait;

/// Rounds of pushes of these streams, one after another: each has a round of its own, unless the taker has it passed over, and
/// where a push of it has no answer that round ends, and the next stream's follows. The taker is told of each round that ended.
///
/// The side has a bound in time for each of them: a push that would come later has no answer, and so its stream's round ends.
/// What is left of the stream stays owed.
///
/// `Memory` says that memory ran out, in a push or in a turn; then the streams that are left have no round.
pub fn push_rounds<R: Wait, K: Passing, S: Side>(
    alloc: Global,
    rt: &R,
    taker: &mut K,
    rules: &Rules,
    streams: &[Text],
    side: &mut S,
    log: &mut TurnLog,
) -> Result<(), Memory>
    ensures rounds { AllRounded K.passes rules.now (record { link = log.old.link; now = log.old.now }) streams.now (S.view side.old) (S.view side.new)
        log.old.turns.items log.new.turns.items (K.Taker.told taker.old) (K.Taker.told taker.new) (is_err result) }
    ensures link { log.new.link ≡ log.old.link }
    ensures now { log.new.now ≡ log.old.now }
{
    for stream in streams {
        round_or_pass(alloc, rt, taker, rules, stream, side, log)?;
    }
    Ok(())
}

// The round of one stream, unless it is passed over.
fn round_or_pass<R: Wait, K: Passing, S: Side>(
    alloc: Global,
    rt: &R,
    taker: &mut K,
    rules: &Rules,
    stream: &Text,
    side: &mut S,
    log: &mut TurnLog,
) -> Result<(), Memory>
    ensures rounds { PassedOrAttempted K.passes rules.now (record { link = log.old.link; now = log.old.now }) stream.now (S.view side.old) (S.view side.new)
        log.old.turns.items log.new.turns.items (K.Taker.told taker.old) (K.Taker.told taker.new) (is_err result) }
    ensures link { log.new.link ≡ log.old.link }
    ensures now { log.new.now ≡ log.old.now }
{
    if !taker.begins(rt, stream) {
        return Ok(());
    }
    let before = log.turns.len();
    let end = push_round(alloc, rt, taker, rules, stream, side, log);
    if let Some(tokens) = taker.ended(rt, stream, &log.turns[before..]) {
        tell(side, None, push_good(alloc, stream.as_str(), tokens));
    }
    end
}

/// Whether a round of these turns leaves nothing for another: it was handed fewer tokens than a page has, and each of them was
/// settled.
pub fn is_brought(turns: &[Turn]) -> bool {
    let Some((hand, settles)) = turns.split_first() else {
        return false;
    };
    match &hand.result {
        Ok(Answer::Handed { tokens }) => {
            let handed = tokens.as_slice().len();
            handed < TOKENS_PER_PAGE
                && handed == settles.len()
                && settles.iter().all(|turn| settled_one(turn))
        }
        _ => false,
    }
}

/// Whether a turn settled a token.
pub fn settled_one(turn: &Turn) -> bool {
    match &turn.result {
        Ok(Answer::Settled { count }) => *count > 0,
        _ => false,
    }
}

// The round of one stream, for which the side has a bound in time. Only memory that runs out is more than its own end.
fn push_round<R: Wait, K: Taker, S: Side>(
    alloc: Global,
    rt: &R,
    taker: &mut K,
    rules: &Rules,
    stream: &Text,
    side: &mut S,
    log: &mut TurnLog,
) -> Result<(), Memory>
    ensures attempted { Attempted rules.now (record { link = log.old.link; now = log.old.now }) stream.now (S.view side.old) (S.view side.new)
        log.old.turns.items log.new.turns.items (K.told taker.old) (K.told taker.new) (is_err result) }
    ensures link { log.new.link ≡ log.old.link }
    ensures now { log.new.now ≡ log.old.now }
{
    side.begin_round();
    let end = push_offered(alloc, rt, taker, rules, stream, side, log);
    outcome_of(end)
}

// What the round of a stream that ended so is to the others: only memory that runs out ends them too.
fn outcome_of(end: Result<(), PushFault>) -> Result<(), Memory>
    ensures { is_err result ≡ handed.is_starved end }
{
    match end {
        Err(PushFault::Memory) => Err(Memory),
        _ => Ok(()),
    }
}

// Pushes what a stream offers.
//
// `Ok` says that each token that was handed has its Settle turn, whatever that turn answered. Any other answer says why the
// push at which the round ended has none: its own fault, or `Memory`, also where a turn was refused memory. A Hand turn that
// is answered by no tokens, as where the store failed, is a whole round.
fn push_offered<R: Wait, K: Taker, S: Side>(
    alloc: Global,
    rt: &R,
    taker: &mut K,
    rules: &Rules,
    stream: &Text,
    side: &mut S,
    log: &mut TurnLog,
) -> Result<(), PushFault>
    ensures round { Rounded rules.now (record { link = log.old.link; now = log.old.now }) stream.now (S.view side.old) (S.view side.new)
        log.old.turns.items log.new.turns.items (K.told taker.old) (K.told taker.new) result }
    ensures link { log.new.link ≡ log.old.link }
    ensures now { log.new.now ≡ log.old.now }
{
    match hand(alloc, rt, taker, stream, log) {
        Ok(()) => deliver_handed(alloc, rt, taker, rules, side, log),
        Err(Memory) => Err(PushFault::Memory),
    }
}

/// Asks for what a stream offers, in a turn.
pub fn hand<R: Wait, K: Taker>(
    alloc: Global,
    rt: &R,
    taker: &mut K,
    stream: &Text,
    log: &mut TurnLog,
) -> Result<(), Memory>
    ensures asked { OnOk result (AddsTurnOf (record { link = log.old.link; now = log.old.now }) (Call.Hand (stream.now ∷ []))
        log.old.turns.items log.new.turns.items (K.told taker.old) (K.told taker.new)) }
    ensures memory { OnErr result (Adds [] log.old.turns.items log.new.turns.items (K.told taker.old) (K.told taker.new)) }
    ensures link { log.new.link ≡ log.old.link }
    ensures now { log.new.now ≡ log.old.now }
{
    match one_name(alloc, stream) {
        Ok(streams) => log.ask(rt, taker, Call::Hand { streams }),
        Err(Memory) => Err(Memory),
    }
}

// A list of one name.
fn one_name(alloc: Global, name: &Text) -> Result<Items<Text>, Memory>
    ensures { IfOk result (λ names. names ≡ name.now ∷ []) }
{
    let mut names = Vec::new(alloc);
    names.push(name.copy(alloc)?)?;
    Ok(Items::of(names))
}

// Delivers the tokens that the last turn handed.
fn deliver_handed<R: Wait, K: Taker, S: Side>(
    alloc: Global,
    rt: &R,
    taker: &mut K,
    rules: &Rules,
    side: &mut S,
    log: &mut TurnLog,
) -> Result<(), PushFault>
    ensures delivered { (earlier : List Turn) (hand : Turn) → log.old.turns.items ≡ earlier ++ hand ∷ []
        → Delivered rules.now (record { link = log.old.link; now = log.old.now }) (handed.tokens_in hand.result) (S.view side.old) (S.view side.new) log.old.turns.items log.new.turns.items (K.told taker.old) (K.told taker.new) result }
    ensures link { log.new.link ≡ log.old.link }
    ensures now { log.new.now ≡ log.old.now }
{
    match tokens_handed(alloc, log.turns.as_slice()) {
        Ok(tokens) => {
            let end = deliver_all(alloc, rt, taker, rules, tokens.as_slice(), side, log);
            note_late(alloc, side, tokens.as_slice(), log.turns.as_slice(), end);
            end
        }
        Err(Memory) => Err(PushFault::Memory),
    }
}

/// Copies of the tokens that the last of these turns handed.
pub fn tokens_handed(alloc: Global, turns: &[Turn]) -> Result<Items<Token>, Memory>
    ensures { IfOk result (λ tokens. (earlier : List Turn) (turn : Turn) → turns.now ≡ earlier ++ turn ∷ [] → tokens ≡ handed.tokens_in turn.result) }
{
    match turns.last() {
        Some(turn) => tokens_in(alloc, turn),
        None => Ok(Items::of(Vec::new(alloc))),
    }
}

// Copies of the tokens that a turn handed.
fn tokens_in(alloc: Global, turn: &Turn) -> Result<Items<Token>, Memory>
    ensures { IfOk result (λ tokens. tokens ≡ handed.tokens_in turn.entry.now.result) }
{
    match &turn.result {
        Ok(Answer::Handed { tokens }) => copy_items(alloc, tokens),
        _ => Ok(Items::of(Vec::new(alloc))),
    }
}
