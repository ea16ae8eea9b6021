//! The transmitter of a replay: its node, none once memory ran out as it was loaded again.

ghost use Rattle.std.specs.Option.{option_to_list};
ghost use Rattle.std.specs.Prelude.{◌≡◌, ◌≤◌, ◌++◌, List, IfErr, IfOk, Ok, OnOk, Some};
ghost use Rattle.sig_terms.specs.declared.fact.Fact.{Fact};
ghost use Rattle.sig_calls.specs.Proper.{IsProperCall};
ghost use Rattle.sig_journal.specs.Added.{rests_with_it};
ghost use Rattle.sig_nodes.specs.Sending.{tx_change, tx_told};
ghost use Rattle.sig_schedules.specs.Replay as spec;
ghost use Rattle.sig_world.specs.Ends.{IsFullTx, TxHaltedIn, TxIn, fault_told};

use crate::settings::replay_rules;
use sig_command::{Stop, TellFault};
use sig_json::Memory;
use sig_nodes::{Halted, crash_tx, stop_tx, take_tx};
use sig_still::StillDisk;
use sig_terms::{Answer, Call};
use sig_txnode::{TxFault, TxNode};
use std::alloc::Global;

/// Makes a call.
pub(crate) fn ask_tx(
    tx: &mut Option<TxNode<StillDisk>>,
    call: &Call,
    now: u64,
) -> Result<Answer, TellFault>
    requires { IsProperCall call.now }
    ensures took { IfOk result (λ answer. (facts : List Fact) → TxIn tx.old facts
        → (tx_told spec.replay_rules spec.replay_store facts call.now now ≡ Ok answer)
        × TxIn tx.new (facts ++ option_to_list (tx_change spec.replay_rules spec.replay_store facts call.now now))) }
    ensures full { IfErr result (λ fault. (facts : List Fact) → TxIn tx.old facts → IsFullTx facts call.now now fault) }
{
    match tx {
        None => Err(TellFault::Memory),
        Some(node) => match take_tx(node, call, now) {
            Ok(answer) => Ok(answer),
            Err(fault) => Err(told_fault(fault)),
        },
    }
}

// What a fault of a node ends a replay with: its disk fails only where it is short of memory.
fn told_fault(fault: TxFault) -> TellFault
    ensures { result ≡ fault_told fault }
{
    match fault {
        TxFault::Full(past) => TellFault::Stopped(Stop::Full(past)),
        TxFault::Store | TxFault::Memory => TellFault::Memory,
    }
}

/// Loads the node again.
pub(crate) fn reload_tx(alloc: Global, tx: &mut Option<TxNode<StillDisk>>) -> Result<(), Memory>
    ensures { OnOk result ((facts : List Fact) → TxIn tx.old facts → TxIn tx.new facts) }
{
    let rules = replay_rules(alloc)?;
    match tx.take() {
        None => Err(Memory),
        Some(node) => {
            let again = crash_tx(alloc, node, rules)?;
            put_tx(tx, again);
            Ok(())
        }
    }
}

/// Makes a call while the node's disk stands still after so many of its calls.
pub(crate) fn halt_tx(
    alloc: Global,
    tx: &mut Option<TxNode<StillDisk>>,
    call: &Call,
    now: u64,
    calls: u64,
    fill: u8,
) -> Result<Halted<Answer>, TellFault>
    requires call { IsProperCall call.now }
    requires calls { calls ≤ 4 }
    ensures halted { IfOk result (λ h. (facts : List Fact) → TxIn tx.old facts → TxHaltedIn facts call.now now (rests_with_it calls fill) tx.new h) }
    ensures full { IfErr result (λ fault. (facts : List Fact) → TxIn tx.old facts → IsFullTx facts call.now now fault) }
{
    let rules = replay_rules(alloc)?;
    match tx.take() {
        None => Err(TellFault::Memory),
        Some(node) => match stop_tx(alloc, node, rules, call, now, calls, fill) {
            Ok((again, halted)) => {
                put_tx(tx, again);
                Ok(halted)
            }
            Err(fault) => Err(told_fault(fault)),
        },
    }
}

// Puts a node where there is none.
fn put_tx(tx: &mut Option<TxNode<StillDisk>>, node: TxNode<StillDisk>)
    ensures { tx.new ≡ Some node }
{
    match tx.replace(node) {
        None => {}
        Some(old) => {
            let (_, _) = old.into_disks();
        }
    }
}
