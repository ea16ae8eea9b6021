//! How a call that is planned is brought to the disk and into the state.

ghost use Rattle.std.specs.Prelude.{◌≡◌, ◌↔◌, ◌<◌, ℕ, None, Some, IfOk, IfSome, IsErrOf};
ghost use Rattle.sig_json.specs.declared.limits.TheConstants.{LAST_NUMBER};
ghost use Rattle.sig_calls.specs.Proper.{IsProperCall, IsProperRules};
ghost use Rattle.sig_calls.specs.Table.{change_of};
ghost use Rattle.sig_outbox.specs.State.{IsReady};
ghost use Rattle.sig_journal.specs.Standing.{StandsFor};
ghost use Rattle.sig_journal.specs.Stored.{IsStored};
ghost use Rattle.sig_txnode.specs.Answering.{Answered, answer_at, end_with, sum_after, when_ok, where_room};
ghost use Rattle.sig_txnode.specs.Given.{KeepsChange, answer_in};
ghost use Rattle.sig_txnode.specs.Planned.{IsKept, fact_in, ready_in};
ghost use Rattle.sig_txnode.specs.Records.{IsRecordOf, sending};
ghost use Rattle.sig_txnode.specs.Taken.{Lasts, Refused};

use crate::plan::{Change, Plan, plan_for};
use sig_journal::{Framed, NodeFault, Store};
use sig_outbox::{Outbox, Prepared};
use sig_outside::Disk;
use sig_terms::{Answer, Call, Fact, Rules};
use std::alloc::Global;

/// The answer to a call, the same to be kept, and the fact to be kept.
#[derive(Drop)]
pub struct Given {
    pub answer: Answer,
    pub kept: Answer,
    pub entry: Option<Fact>,
}

// Journals a fact, and takes it in once it stands there.
fn carry<D: Disk>(
    store: &mut Store<D>,
    outbox: &mut Outbox,
    prepared: Prepared,
    framed: &Framed,
    turn: u64,
) -> Result<(), NodeFault>
    requires whole { store.old.broken_at ≡ None }
    requires stored { IsStored D.told D.seen D.may_leave store.old }
    requires stands { StandsFor sending D.told D.seen D.may_leave store.old outbox.old.sum }
    requires ready { IsReady outbox.old (Some prepared) }
    requires recorded { IsRecordOf prepared.fact framed.now }
    ensures state { outbox.new.sum ≡ sum_after outbox.old.sum (when_ok result (Some prepared.fact)) }
    ensures stands { StandsFor sending D.told D.seen D.may_leave store.new outbox.new.sum }
    ensures lasts { Lasts D.told D.seen D.may_leave D.moment D.left_since D.stop D.short store.old store.new outbox.old.sum (Some prepared.fact) result }
    ensures refused { Refused D.faults store.old store.new turn result }
    ensures full { (n : ℕ) → IsErrOf result (NodeFault.Full n) ↔ ((n ≡ end_with store.old.journal.end prepared.fact) × (LAST_NUMBER < n)) }
{
    match store.append(framed, turn) {
        Ok(()) => {
            outbox.commit(prepared);
            Ok(())
        }
        Err(fault) => {
            drop(prepared);
            Err(NodeFault::of_append(fault))
        }
    }
}

// Makes a call that is planned: its change stands in the journal before it is taken in, and nothing refuses it after that.
fn make<D: Disk>(
    store: &mut Store<D>,
    outbox: &mut Outbox,
    plan: Plan,
    turn: u64,
) -> Result<Given, NodeFault>
    requires whole { store.old.broken_at ≡ None }
    requires stored { IsStored D.told D.seen D.may_leave store.old }
    requires stands { StandsFor sending D.told D.seen D.may_leave store.old outbox.old.sum }
    requires ready { IsReady outbox.old (ready_in plan) }
    requires kept { IsKept plan }
    ensures answered { Answered (where_room store.old.journal.end plan.answer (fact_in plan)) (fact_in plan) None outbox.old.sum outbox.new.sum (answer_in result) }
    ensures given { IfOk result (KeepsChange (fact_in plan)) }
    ensures stands { StandsFor sending D.told D.seen D.may_leave store.new outbox.new.sum }
    ensures lasts { Lasts D.told D.seen D.may_leave D.moment D.left_since D.stop D.short store.old store.new outbox.old.sum (fact_in plan) (answer_in result) }
    ensures refused { Refused D.faults store.old store.new turn (answer_in result) }
{
    let Plan {
        answer,
        kept,
        change,
    } = plan;
    let Some(change) = change else {
        return Ok(Given {
            answer,
            kept,
            entry: None,
        });
    };
    let Change {
        prepared,
        framed,
        entry,
    } = change;
    match carry(store, outbox, prepared, &framed, turn) {
        Ok(()) => Ok(Given {
            answer,
            kept,
            entry: Some(entry),
        }),
        Err(fault) => {
            drop(answer);
            drop(kept);
            drop(entry);
            Err(fault)
        }
    }
}

/// Answers a call by the table of calls, and makes its change.
pub fn answer_call<D: Disk>(
    alloc: Global,
    store: &mut Store<D>,
    outbox: &mut Outbox,
    rules: &Rules,
    call: &Call,
    now: u64,
    turn: u64,
) -> Result<Given, NodeFault>
    requires rules { IsProperRules rules.now }
    requires call { IsProperCall call.now }
    requires stands { StandsFor sending D.told D.seen D.may_leave store.old outbox.old.sum }
    ensures answered { Answered (answer_at rules.now outbox.old.sum store.old.journal.end call.now now) (change_of rules.now outbox.old.sum call.now now) store.old.broken_at outbox.old.sum outbox.new.sum (answer_in result) }
    ensures given { IfOk result (KeepsChange (change_of rules.now outbox.old.sum call.now now)) }
    ensures stands { StandsFor sending D.told D.seen D.may_leave store.new outbox.new.sum }
    ensures lasts { Lasts D.told D.seen D.may_leave D.moment D.left_since D.stop D.short store.old store.new outbox.old.sum (change_of rules.now outbox.old.sum call.now now) (answer_in result) }
    ensures refused { Refused D.faults store.old store.new turn (answer_in result) }
{
    if store.broken_at().is_some() {
        return Err(NodeFault::Store);
    }
    match plan_for(alloc, outbox, rules, call, now) {
        Ok(plan) => make(store, outbox, plan, turn),
        Err(fault) => Err(fault),
    }
}
