//! How a tick tries streams.

ghost use Rattle.std.specs.Prelude.{◌≡◌, ◌<◌, ◌≤◌, ◌∷◌, [], ◌++◌, List, Option, IfOk, true, vec_capacity, vec_len};
ghost use Rattle.std.specs.Option.{option_to_list};
ghost use Rattle.sig_courier.specs.Schedule.{IsLogged, is_known};
ghost use Rattle.sig_courier.specs.declared.attempt.Attempt.{Attempt};
ghost use Rattle.sig_json.specs.Answers.{result_map};
ghost use Rattle.sig_json.specs.declared.limits.TheConstants.{LAST_NUMBER};
ghost use Rattle.sig_tick.specs.Trying.{Tried, TriedDue, TriedOne, made_at};
ghost use Rattle.sig_txnode.specs.declared.turn.Turn.{Turn};

use crate::attempting::{Trial, attempt};
use sig_courier::{Attempt, Schedule};
use sig_journal::NodeFault;
use sig_json::Text;
use sig_json::limits::LAST_NUMBER;
use sig_links::Side;
use sig_round::TurnLog;
use sig_terms::Rules;
use sig_txnode::Taker;
use std::alloc::Global;
use std::sync::Wait;

/// Tries these streams, one after another: each that is due is asked what it offers, and what it offers is brought. Answers the
/// attempts; each is noted as it ends, also one that ends by a fault.
pub fn try_all<R: Wait, K: Taker, S: Side>(
    alloc: Global,
    rt: &R,
    taker: &mut K,
    rules: &Rules,
    streams: &[Text],
    schedule: &mut Schedule,
    side: &mut S,
    log: &mut TurnLog,
) -> Result<Vec<Attempt>, NodeFault>
    ensures tried { (made : List Attempt) × IfOk result (λ attempts. attempts.items ≡ made)
        × Tried rules.now (record { link = log.old.link; now = log.old.now }) streams.now schedule.old schedule.new (S.view side.old) (S.view side.new)
        log.old.turns.items log.new.turns.items (K.told taker.old) (K.told taker.new) made (result_map (λ attempts. tt) result) }
    ensures link { log.new.link ≡ log.old.link }
    ensures now { log.new.now ≡ log.old.now }
{
    let mut attempts = Vec::new(alloc);
    for stream in streams {
        attempts.reserve(1)?;
        let attempt = try_one(alloc, rt, taker, rules, stream, schedule, side, log)?;
        keep(&mut attempts, attempt);
    }
    Ok(attempts)
}

// Keeps an attempt last, where there is one.
fn keep(attempts: &mut Vec<Attempt>, attempt: Option<Attempt>)
    requires { vec_len attempts.old < vec_capacity attempts.old }
    ensures { attempts.new.items ≡ attempts.old.items ++ option_to_list attempt }
{
    if let Some(attempt) = attempt {
        attempts.push_reserved(attempt);
    }
}

// Tries a stream where it is due.
fn try_one<R: Wait, K: Taker, S: Side>(
    alloc: Global,
    rt: &R,
    taker: &mut K,
    rules: &Rules,
    stream: &Text,
    schedule: &mut Schedule,
    side: &mut S,
    log: &mut TurnLog,
) -> Result<Option<Attempt>, NodeFault>
    ensures tried { (made : Option Attempt) × IfOk result (λ attempt. attempt ≡ made)
        × TriedOne rules.now (record { link = log.old.link; now = log.old.now }) stream.now schedule.old schedule.new (S.view side.old) (S.view side.new)
        log.old.turns.items log.new.turns.items (K.told taker.old) (K.told taker.new) made (result_map (λ attempt. tt) result) }
    ensures link { log.new.link ≡ log.old.link }
    ensures now { log.new.now ≡ log.old.now }
{
    if schedule.due_at(stream) <= log.now.min(LAST_NUMBER) {
        try_due(alloc, rt, taker, rules, stream, schedule, side, log)
    } else {
        Ok(None)
    }
}

// Makes an attempt, and notes it.
fn try_due<R: Wait, K: Taker, S: Side>(
    alloc: Global,
    rt: &R,
    taker: &mut K,
    rules: &Rules,
    stream: &Text,
    schedule: &mut Schedule,
    side: &mut S,
    log: &mut TurnLog,
) -> Result<Option<Attempt>, NodeFault>
    ensures tried { (made : Option Attempt) × IfOk result (λ attempt. attempt ≡ made)
        × TriedDue rules.now (record { link = log.old.link; now = log.old.now }) stream.now schedule.old schedule.new (S.view side.old) (S.view side.new)
        log.old.turns.items log.new.turns.items (K.told taker.old) (K.told taker.new) made (result_map (λ attempt. tt) result) }
    ensures link { log.new.link ≡ log.old.link }
    ensures now { log.new.now ≡ log.old.now }
{
    let name = stream.copy(alloc)?;
    schedule.make_room(stream)?;
    let trial = attempt(alloc, rt, taker, rules, stream, side, log);
    note(schedule, name, log.now.min(LAST_NUMBER), trial)
}

// Notes an attempt of a stream, where there was one, for whose note there is room.
fn note(
    schedule: &mut Schedule,
    stream: Text,
    at: u64,
    trial: Trial,
) -> Result<Option<Attempt>, NodeFault>
    requires known { is_known schedule.old stream ≡ true }
    requires time { at ≤ LAST_NUMBER }
    ensures made { IfOk result (λ attempt. attempt ≡ made_at at stream trial) }
    ensures end { result_map (λ attempt. tt) result ≡ trial.end }
    ensures notes { (log : List Attempt) → IsLogged schedule.old log → IsLogged schedule.new (log ++ option_to_list (made_at at stream trial)) }
{
    if trial.tokens == 0 {
        return match trial.end {
            Ok(()) => Ok(None),
            Err(fault) => Err(fault),
        };
    }
    let attempt = Attempt {
        stream,
        at,
        tokens: trial.tokens,
        good: trial.good,
    };
    schedule.note_known(&attempt);
    match trial.end {
        Ok(()) => Ok(Some(attempt)),
        Err(fault) => {
            drop(attempt);
            Err(fault)
        }
    }
}
