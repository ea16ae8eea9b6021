//! Errands: what a transmitter does by itself beside its links.

ghost use Rattle.std.specs.Prelude.{◌≡◌, true};
ghost use Rattle.sig_txend.specs.Errands.{Does, Lists, Looked, Looks, TriesOne};
ghost use Rattle.sig_txend.specs.Following as spec;

use crate::following::has_client;
use crate::{Dispatching, Task};
use sig_courier::Attempt;
use sig_json::limits::{LAST_NUMBER, TOKENS_PER_PAGE};
use sig_json::{Memory, Text};
use sig_links::Side;
use sig_notes::{push_good, tell};
use sig_round::TurnLog;
use sig_terms::Rules;
use sig_tick::{attempt, list, pushes_listed};
use sig_txnode::Turn;
use std::alloc::Global;
use std::mem::replace;
use std::sync::Wait;

/// How many turns an errand has before it ends, once what it does is done. Another one goes on where there is more to do.
pub const TURNS_PER_ERRAND: usize = 256;

/// Does an errand of this number: it lists the push streams, or tries one after another, as long as there is one that is due.
/// It answers its turns. After a fault of the store, or where memory runs out, it ends.
pub fn do_errand<R: Wait, K: Dispatching, S: Side>(
    alloc: Global,
    rt: &R,
    taker: &mut K,
    rules: &Rules,
    number: u32,
    side: &mut S,
) -> Vec<Turn>
    ensures { Looked rules.now number (S.view side.old) (S.view side.new) result.items }
{
    let mut turns = Vec::new(alloc);
    for _ in 0..TURNS_PER_ERRAND {
        let goes_on = do_next(alloc, rt, taker, rules, number, side, &mut turns);
        if !goes_on || turns.len() >= TURNS_PER_ERRAND {
            return turns;
        }
    }
    turns
}

// Does what is to be done next, at the time that the side tells, and says whether the errand goes on.
fn do_next<R: Wait, K: Dispatching, S: Side>(
    alloc: Global,
    rt: &R,
    taker: &mut K,
    rules: &Rules,
    number: u32,
    side: &mut S,
    turns: &mut Vec<Turn>,
) -> bool
    ensures { Looks rules.now number (S.view side.old) (S.view side.new) turns.old.items turns.new.items }
{
    let now = side.now();
    let Some(task) = taker.next(rt, now) else {
        return false;
    };
    let turns_so_far = replace(turns, Vec::new(alloc));
    let mut log = TurnLog {
        link: number,
        now,
        turns: turns_so_far,
    };
    let goes_on = do_task(alloc, rt, taker, rules, task, side, &mut log);
    *turns = log.turns;
    goes_on
}

// Does this, and says whether the errand goes on.
fn do_task<R: Wait, K: Dispatching, S: Side>(
    alloc: Global,
    rt: &R,
    taker: &mut K,
    rules: &Rules,
    task: Task,
    side: &mut S,
    log: &mut TurnLog,
) -> bool
    ensures { Does rules.now (record { link = log.old.link; now = log.old.now }) (S.view side.old) (S.view side.new) log.old.turns.items log.new.turns.items }
{
    match task {
        Task::List => list_streams(alloc, rt, taker, rules, log),
        Task::Try { stream } => {
            if has_client(rules, stream.as_str()) {
                try_stream(alloc, rt, taker, rules, stream, side, log)
            } else {
                taker.left(rt, &stream, false);
                true
            }
        }
    }
}

// Asks for the push streams of all clients, and says whether all were told.
fn list_streams<R: Wait, K: Dispatching>(
    alloc: Global,
    rt: &R,
    taker: &mut K,
    rules: &Rules,
    log: &mut TurnLog,
) -> bool
    ensures { Lists rules.now (record { link = log.old.link; now = log.old.now }) log.old.turns.items log.new.turns.items }
{
    let before = log.turns.len();
    let end = list(alloc, rt, taker, rules, log);
    match pushes_listed(alloc, &log.turns[before..]) {
        Ok(streams) => {
            taker.listed(rt, streams.as_slice(), end.is_ok());
            end.is_ok()
        }
        Err(Memory) => {
            taker.listed(rt, &[], false);
            false
        }
    }
}

// Tries a stream, and says whether the errand goes on.
fn try_stream<R: Wait, K: Dispatching, S: Side>(
    alloc: Global,
    rt: &R,
    taker: &mut K,
    rules: &Rules,
    stream: Text,
    side: &mut S,
    log: &mut TurnLog,
) -> bool
    requires { spec.has_client rules.now stream ≡ true }
    ensures { TriesOne rules.now (record { link = log.old.link; now = log.old.now }) (S.view side.old) (S.view side.new) log.old.turns.items log.new.turns.items }
{
    let before = log.turns.len();
    let trial = attempt(alloc, rt, taker, rules, &stream, side, log);
    let made = Attempt {
        stream,
        at: log.now.min(LAST_NUMBER),
        tokens: trial.tokens,
        good: trial.good,
    };
    let is_whole = trial.end.is_ok();
    let more = !is_whole || trial.tokens >= TOKENS_PER_PAGE as u64;
    if let Some(tokens) = taker.tried(rt, &made, &log.turns[before..], more) {
        tell(side, None, push_good(alloc, made.stream.as_str(), tokens));
    }
    is_whole
}
