//! The receiver of a replay: its node, none once memory ran out as it was loaded again.

ghost use Rattle.std.specs.Prelude.{◌≡◌, ◌≤◌, ◌++◌, List, ℕ, IfErr, IfOk, OnOk, Some};
ghost use Rattle.sig_journal.specs.Added.{rests_with_it};
ghost use Rattle.sig_nodes.specs.Receiving.{RxRoom, rx_change, rx_told};
ghost use Rattle.sig_schedules.specs.Replay as spec;
ghost use Rattle.sig_world.specs.Ends.{IsFullRx, RxHaltedIn, RxIn, fault_told, receiver_rules};

use crate::settings::receiver_rules;
use sig_command::{Stop, TellFault};
use sig_json::Memory;
use sig_nodes::{Halted, crash_rx, stop_rx, take_rx};
use sig_rxnode::{RxAnswer, RxCall, RxFault, RxNode};
use sig_still::StillDisk;
use std::alloc::Global;

/// Makes a call.
pub(crate) fn ask_rx(
    rx: &mut Option<RxNode<StillDisk>>,
    call: &RxCall,
) -> Result<RxAnswer, TellFault>
    ensures took { IfOk result (λ answer. (texts : List (List ℕ)) → RxIn rx.old texts
        → (rx_told receiver_rules texts call.now ≡ answer) × RxRoom receiver_rules spec.receiver_store texts call.now
        × RxIn rx.new (texts ++ rx_change receiver_rules texts call.now)) }
    ensures full { IfErr result (λ fault. (texts : List (List ℕ)) → RxIn rx.old texts → IsFullRx texts call.now fault) }
{
    match rx {
        None => Err(TellFault::Memory),
        Some(node) => match take_rx(node, call) {
            Ok(answer) => Ok(answer),
            Err(fault) => Err(told_fault(fault)),
        },
    }
}

// What a fault of a node ends a replay with: its disk fails only where it is short of memory.
fn told_fault(fault: RxFault) -> TellFault
    ensures { result ≡ fault_told fault }
{
    match fault {
        RxFault::Full(past) => TellFault::Stopped(Stop::Full(past)),
        RxFault::Store | RxFault::Memory => TellFault::Memory,
    }
}

/// Loads the node again.
pub(crate) fn reload_rx(alloc: Global, rx: &mut Option<RxNode<StillDisk>>) -> Result<(), Memory>
    ensures { OnOk result ((texts : List (List ℕ)) → RxIn rx.old texts → RxIn rx.new texts) }
{
    let rules = receiver_rules(alloc)?;
    match rx.take() {
        None => Err(Memory),
        Some(node) => {
            let again = crash_rx(alloc, node, rules)?;
            put_rx(rx, again);
            Ok(())
        }
    }
}

/// Makes a call while the node's disk stands still after so many of its calls.
pub(crate) fn halt_rx(
    alloc: Global,
    rx: &mut Option<RxNode<StillDisk>>,
    call: &RxCall,
    calls: u64,
    fill: u8,
) -> Result<Halted<RxAnswer>, TellFault>
    requires { calls ≤ 4 }
    ensures halted { IfOk result (λ h. (texts : List (List ℕ)) → RxIn rx.old texts → RxHaltedIn texts call.now (rests_with_it calls fill) rx.new h) }
    ensures full { IfErr result (λ fault. (texts : List (List ℕ)) → RxIn rx.old texts → IsFullRx texts call.now fault) }
{
    let rules = receiver_rules(alloc)?;
    match rx.take() {
        None => Err(TellFault::Memory),
        Some(node) => match stop_rx(alloc, node, rules, call, calls, fill) {
            Ok((again, halted)) => {
                put_rx(rx, again);
                Ok(halted)
            }
            Err(fault) => Err(told_fault(fault)),
        },
    }
}

// Puts a node where there is none.
fn put_rx(rx: &mut Option<RxNode<StillDisk>>, node: RxNode<StillDisk>)
    ensures { rx.new ≡ Some node }
{
    match rx.replace(node) {
        None => {}
        Some(old) => {
            let (_, _) = old.into_disks();
        }
    }
}
