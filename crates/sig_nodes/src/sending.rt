//! A transmitter's node over a store in memory, which crashes and stands still.

ghost use Rattle.std.specs.Option.{option_to_list};
ghost use Rattle.std.specs.Prelude.{◌≡◌, ◌≤◌, ◌+◌, ◌++◌, ℕ, [], List, false, true, length, nat_lt, IfOk, Ok, Err, Some, None, IsErrOf};
ghost use Rattle.sig_terms.specs.declared.fact.Fact.{Fact};
ghost use Rattle.sig_terms.specs.declared.rules.Rules.{Rules};
ghost use Rattle.sig_calls.specs.Proper.{IsProperCall, IsProperRules};
ghost use Rattle.sig_journal.specs.Added.{rests_with_it};
ghost use Rattle.sig_journal.specs.declared.kind.Kind.TheVariants.{Tx};
ghost use Rattle.sig_journal.specs.Store.{tells};
ghost use Rattle.sig_outside.specs.KeptDisk.{seen};
ghost use Rattle.sig_journal.specs.Taking as taking;
ghost use Rattle.sig_outside.specs.Disk.{StopsAfter};
ghost use Rattle.sig_still.specs.Still.{is_short, stop};
ghost use Rattle.sig_still.specs.Stores.{ReadsBoth, store_of};
ghost use Rattle.sig_txnode.specs.Records.{sending};
ghost use Rattle.sig_nodes.specs.Records.{fact_records};
ghost use Rattle.sig_nodes.specs.Sending.{TxAt, TxHalted, TxRests, TxTaken, sum_at, tx_change, tx_told};
ghost use Rattle.sig_nodes.specs.declared.halted.Halted.TheVariants.{Crashed};

use crate::Halted;
use sig_journal::{Kind, LoadRefused};
use sig_json::Memory;
use sig_still::{StillDisk, crashed_store, new_store};
use sig_terms::{Answer, Call, Rules};
use sig_txnode::{TxFault, TxNode};
use std::alloc::Global;

/// A transmitter over a new store.
pub fn new_tx(alloc: Global, rules: Rules, store_id: [u8; 16]) -> Result<TxNode<StillDisk>, Memory>
    requires { IsProperRules rules }
    ensures { IfOk result (λ n. TxAt rules store_id n []) }
{
    match new_store(alloc, Kind::Tx, store_id) {
        Ok((a, b)) => load_tx(alloc, a, b, rules),
        Err(Memory) => Err(Memory),
    }
}

// The node of a store in memory.
fn load_tx(
    alloc: Global,
    a: StillDisk,
    b: StillDisk,
    rules: Rules,
) -> Result<TxNode<StillDisk>, Memory>
    requires { IsProperRules rules }
    ensures { IfOk result (λ n. (name : List ℕ) (facts : List Fact) → tells Tx (seen a) (seen b) ≡ Ok (store_of name (fact_records facts))
        → taking.loaded sending (Ok (store_of name (fact_records facts))) ≡ Ok (sum_at name facts) → TxAt rules name n facts) }
{
    match TxNode::load(alloc, a, b, rules) {
        Ok(node) => Ok(node),
        Err(refused) => {
            let LoadRefused {
                fault: _,
                a: _,
                b: _,
            } = refused;
            Err(Memory)
        }
    }
}

// The node of what a crash leaves of a node's store.
fn load_rest(
    alloc: Global,
    node: TxNode<StillDisk>,
    rules: Rules,
) -> Result<TxNode<StillDisk>, Memory>
    requires { IsProperRules rules }
    ensures { IfOk result (λ n. (name : List ℕ) (facts : List Fact) → (is_short node.store.journal.written ≡ false → TxRests name node facts) → TxAt rules name n facts) }
{
    let (a, b) = node.into_disks();
    match crashed_store(alloc, &a, &b) {
        Ok((first, second)) => load_tx(alloc, first, second, rules),
        Err(Memory) => Err(Memory),
    }
}

/// Makes a call, as a link of the number 0. `Full` tells the number that would pass 2^62.
pub fn take_tx(node: &mut TxNode<StillDisk>, call: &Call, now: u64) -> Result<Answer, TxFault>
    requires { IsProperCall call.now }
    ensures took { IfOk result (λ answer. (rules : Rules) (name : List ℕ) (facts : List Fact) → TxAt rules name node.old facts
        → (tx_told rules name facts call.now now ≡ Ok answer) × TxAt rules name node.new (facts ++ option_to_list (tx_change rules name facts call.now now))) }
    ensures full { (n : ℕ) → IsErrOf result (TxFault.Full n) → (rules : Rules) (name : List ℕ) (facts : List Fact) → TxAt rules name node.old facts → tx_told rules name facts call.now now ≡ Err (TxFault.Full n) }
{
    node.take(0, call, now)
}

/// The node after a crash: it is loaded from what the crash leaves.
pub fn crash_tx(
    alloc: Global,
    node: TxNode<StillDisk>,
    rules: Rules,
) -> Result<TxNode<StillDisk>, Memory>
    requires { IsProperRules rules }
    ensures { IfOk result (λ n. (name : List ℕ) (facts : List Fact) → TxAt rules name node facts → TxAt rules name n facts) }
{
    load_rest(alloc, node, rules)
}

// The node after a call that was brought to a disk that stands still.
fn load_halted(
    alloc: Global,
    node: TxNode<StillDisk>,
    rules: Rules,
    before: u64,
) -> Result<(TxNode<StillDisk>, Halted<Answer>), TxFault>
    requires { IsProperRules rules }
    ensures crashed { IfOk result (λ r. (name : List ℕ) (facts : List Fact) → (is_short node.store.journal.written ≡ false → TxRests name node facts)
        → TxAt rules name r.0 facts × (r.1 ≡ Crashed (nat_lt before (length facts)))) }
    ensures full { (n : ℕ) → IsErrOf result (TxFault.Full n) → ⊥ }
{
    match load_rest(alloc, node, rules) {
        Ok(again) => {
            let kept = again.records() > before;
            Ok((again, Halted::Crashed { kept }))
        }
        Err(Memory) => Err(TxFault::Memory),
    }
}

// Makes a call while the disk stands still; none where it was brought to the disk, so that the node has to be loaded again.
fn take_halted(
    node: &mut TxNode<StillDisk>,
    call: &Call,
    now: u64,
) -> Result<Option<Answer>, TxFault>
    requires { IsProperCall call.now }
    ensures taken { IfOk result (λ o. (rules : Rules) (name : List ℕ) (facts : List Fact) (calls fill : ℕ) → TxAt rules name node.old facts
        → StopsAfter true calls fill (stop node.old.store.journal.written) → TxTaken rules name facts call.now now (rests_with_it calls fill) node.new o) }
    ensures full { (n : ℕ) → IsErrOf result (TxFault.Full n) → (rules : Rules) (name : List ℕ) (facts : List Fact) → TxAt rules name node.old facts → tx_told rules name facts call.now now ≡ Err (TxFault.Full n) }
{
    let before = node.records();
    match node.take(0, call, now) {
        Ok(answer) => Ok(answered(node, before, answer)),
        Err(TxFault::Store) => Ok(None),
        Err(fault) => Err(fault),
    }
}

// The answer of a call after which the journal has so many records more than before, where it has no more. The disk stands
// still no longer then.
fn answered(node: &mut TxNode<StillDisk>, before: u64, answer: Answer) -> Option<Answer>
    ensures idle { node.old.store.journal.records ≡ before → (result ≡ Some answer) × ReadsBoth node.old.store node.new.store × (node.new.rules ≡ node.old.rules) × (node.new.state ≡ node.old.state) }
    ensures made { node.old.store.journal.records ≡ before + 1 → (result ≡ None) × (node.new ≡ node.old) }
{
    if node.records() > before {
        drop(answer);
        return None;
    }
    node.stop_after(u64::MAX, 0);
    Some(answer)
}

/// Makes a call while the node's disk stands still after so many of its calls. Where the call is brought to the disk, the
/// node is loaded again from what the disk rests with.
///
/// `Full` tells the number that would pass 2^62, as without the stop. It never answers `Store`.
pub fn stop_tx(
    alloc: Global,
    node: TxNode<StillDisk>,
    rules: Rules,
    call: &Call,
    now: u64,
    calls: u64,
    fill: u8,
) -> Result<(TxNode<StillDisk>, Halted<Answer>), TxFault>
    requires rules { IsProperRules rules }
    requires call { IsProperCall call.now }
    requires calls { calls ≤ 4 }
    ensures halted { IfOk result (λ r. (name : List ℕ) (facts : List Fact) → TxAt rules name node facts → TxHalted rules name facts call.now now (rests_with_it calls fill) r.0 r.1) }
    ensures full { (n : ℕ) → IsErrOf result (TxFault.Full n) → (name : List ℕ) (facts : List Fact) → TxAt rules name node facts → tx_told rules name facts call.now now ≡ Err (TxFault.Full n) }
{
    let mut node = node;
    let before = node.records();
    node.stop_after(calls, fill);
    match take_halted(&mut node, call, now) {
        Ok(Some(answer)) => Ok((node, Halted::Answered(answer))),
        Ok(None) => load_halted(alloc, node, rules, before),
        Err(fault) => {
            let (_, _) = node.into_disks();
            Err(fault)
        }
    }
}
