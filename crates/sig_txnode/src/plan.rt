//! What a call comes to before anything is journalled.

ghost use Rattle.std.specs.Prelude.{◌≡◌, option_map, IfOk, IfSome};
ghost use Rattle.sig_json.specs.Answers.{Answers, result_map};
ghost use Rattle.sig_calls.specs.Proper.{IsProperCall, IsProperRules};
ghost use Rattle.sig_calls.specs.Table.{prepared_of};
ghost use Rattle.sig_outbox.specs.State.{IsReady};
ghost use Rattle.sig_txnode.specs.Planned.{IsKept, IsRecorded, ready_in, refused_as, reply_with};

use crate::records::recorded;
use sig_journal::{Framed, NodeFault};
use sig_json::Memory;
use sig_outbox::{Outbox, Prepared, Step};
use sig_terms::{Answer, Call, Fact, PrepareFault, Rules};
use std::alloc::Global;

/// A fact that is ready to be journalled and taken in: as the core takes it, its record, and the fact to be kept.
#[derive(Drop)]
pub struct Change {
    pub prepared: Prepared,
    pub framed: Framed,
    pub entry: Fact,
}

/// How a call is to be answered: the answer, the same to be kept, and its change.
#[derive(Drop)]
pub struct Plan {
    pub answer: Answer,
    pub kept: Answer,
    pub change: Option<Change>,
}

/// How a call is to be answered at a time. The state stays; room is made for the fact.
pub fn plan_for(
    alloc: Global,
    outbox: &mut Outbox,
    rules: &Rules,
    call: &Call,
    now: u64,
) -> Result<Plan, NodeFault>
    ensures state { outbox.new.sum ≡ outbox.old.sum }
    ensures answers { Answers NodeFault.Memory (result_map reply_with result) (refused_as (prepared_of rules.now outbox.old.sum call.now now)) }
    ensures kept { IfOk result IsKept }
    ensures ready { IfOk result (λ p. IsProperRules rules.now → IsProperCall call.now → IsReady outbox.new (ready_in p)) }
{
    match outbox.prepare(rules, call, now) {
        Ok(step) => Ok(planned(alloc, step)?),
        Err(PrepareFault::Number(n)) => Err(NodeFault::Full(n)),
        Err(PrepareFault::Memory) => Err(NodeFault::Memory),
    }
}

// A step with the record of its fact.
fn planned(alloc: Global, step: Step) -> Result<Plan, Memory>
    ensures answer { IfOk result (λ p. p.answer ≡ step.answer) }
    ensures ready { IfOk result (λ p. ready_in p ≡ step.change) }
    ensures kept { IfOk result IsKept }
{
    let Step { answer, change } = step;
    let kept = match answer.copy(alloc) {
        Ok(kept) => kept,
        Err(refused) => {
            drop(answer);
            drop(change);
            return Err(refused);
        }
    };
    match change_in(alloc, change) {
        Ok(change) => Ok(Plan {
            answer,
            kept,
            change,
        }),
        Err(refused) => {
            drop(answer);
            drop(kept);
            Err(refused)
        }
    }
}

// A fact with its record, where there is one.
fn change_in(alloc: Global, prepared: Option<Prepared>) -> Result<Option<Change>, Memory>
    ensures ready { IfOk result (λ o. option_map (λ c. c.prepared) o ≡ prepared) }
    ensures recorded { IfOk result (λ o. IfSome o IsRecorded) }
{
    match prepared {
        Some(prepared) => Ok(Some(change_of(alloc, prepared)?)),
        None => Ok(None),
    }
}

// A fact with its record.
fn change_of(alloc: Global, prepared: Prepared) -> Result<Change, Memory>
    ensures prepared { IfOk result (λ c. c.prepared ≡ prepared) }
    ensures recorded { IfOk result IsRecorded }
{
    match recorded(alloc, prepared.fact()) {
        Ok((framed, entry)) => Ok(Change {
            prepared,
            framed,
            entry,
        }),
        Err(refused) => {
            drop(prepared);
            Err(refused)
        }
    }
}
