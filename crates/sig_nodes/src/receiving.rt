//! A receiver's node over a store in memory, which crashes and stands still.

ghost use Rattle.std.specs.Prelude.{◌≡◌, ◌≤◌, ◌+◌, ◌++◌, ℕ, [], List, false, true, length, nat_lt, IfOk, Ok, Some, None, IsErrOf};
ghost use Rattle.sig_journal.specs.Added.{rests_with_it};
ghost use Rattle.sig_journal.specs.declared.kind.Kind.TheVariants.{Rx};
ghost use Rattle.sig_journal.specs.Store.{tells};
ghost use Rattle.sig_outside.specs.Disk.{StopsAfter};
ghost use Rattle.sig_outside.specs.KeptDisk.{seen};
ghost use Rattle.sig_journal.specs.Taking as taking;
ghost use Rattle.sig_still.specs.Still.{is_short, stop};
ghost use Rattle.sig_still.specs.Stores.{ReadsBoth, store_of};
ghost use Rattle.sig_rxnode.specs.declared.rules.RxRules.{RxRules as Settings};
ghost use Rattle.sig_rxnode.specs.Records.{receiving};
ghost use Rattle.sig_nodes.specs.Records.{token_records};
ghost use Rattle.sig_nodes.specs.Receiving.{RxAt, RxHalted, RxPasses, RxRests, RxRoom, RxTaken, kept_of, rx_change, rx_told};
ghost use Rattle.sig_nodes.specs.declared.halted.Halted.TheVariants.{Crashed};

use crate::Halted;
use sig_journal::{Kind, LoadRefused};
use sig_json::Memory;
use sig_rxnode::{RxAnswer, RxCall, RxFault, RxNode, RxRules};
use sig_still::{StillDisk, crashed_store, new_store};
use std::alloc::Global;

/// A receiver over a new store.
pub fn new_rx(
    alloc: Global,
    rules: RxRules,
    store_id: [u8; 16],
) -> Result<RxNode<StillDisk>, Memory>
    ensures { IfOk result (λ n. RxAt rules store_id n []) }
{
    match new_store(alloc, Kind::Rx, store_id) {
        Ok((a, b)) => load_rx(alloc, a, b, rules),
        Err(Memory) => Err(Memory),
    }
}

// The node of a store in memory.
fn load_rx(
    alloc: Global,
    a: StillDisk,
    b: StillDisk,
    rules: RxRules,
) -> Result<RxNode<StillDisk>, Memory>
    ensures { IfOk result (λ n. (name : List ℕ) (texts : List (List ℕ)) → tells Rx (seen a) (seen b) ≡ Ok (store_of name (token_records texts))
        → taking.loaded receiving (Ok (store_of name (token_records texts))) ≡ Ok (kept_of texts) → RxAt rules name n texts) }
{
    match RxNode::load(alloc, a, b, rules) {
        Ok(node) => Ok(node),
        Err(refused) => {
            let LoadRefused {
                fault: _,
                a: _,
                b: _,
            } = refused;
            Err(Memory)
        }
    }
}

// The node of what a crash leaves of a node's store.
fn load_rest(
    alloc: Global,
    node: RxNode<StillDisk>,
    rules: RxRules,
) -> Result<RxNode<StillDisk>, Memory>
    ensures { IfOk result (λ n. (name : List ℕ) (texts : List (List ℕ)) → (is_short node.kept.store.journal.written ≡ false → RxRests name node texts) → RxAt rules name n texts) }
{
    let (a, b) = node.into_disks();
    match crashed_store(alloc, &a, &b) {
        Ok((first, second)) => load_rx(alloc, first, second, rules),
        Err(Memory) => Err(Memory),
    }
}

/// Makes a call, as a link of the number 0. `Full` tells the number that would pass 2^62.
pub fn take_rx(node: &mut RxNode<StillDisk>, call: &RxCall) -> Result<RxAnswer, RxFault>
    ensures took { IfOk result (λ answer. (rules : Settings) (name : List ℕ) (texts : List (List ℕ)) → RxAt rules name node.old texts
        → (rx_told rules texts call.now ≡ answer) × RxRoom rules name texts call.now × RxAt rules name node.new (texts ++ rx_change rules texts call.now)) }
    ensures full { (n : ℕ) → IsErrOf result (RxFault.Full n) → (rules : Settings) (name : List ℕ) (texts : List (List ℕ)) → RxAt rules name node.old texts → RxPasses rules name texts call.now n }
{
    node.take(0, call)
}

/// The node after a crash: it is loaded from what the crash leaves.
pub fn crash_rx(
    alloc: Global,
    node: RxNode<StillDisk>,
    rules: RxRules,
) -> Result<RxNode<StillDisk>, Memory>
    ensures { IfOk result (λ n. (name : List ℕ) (texts : List (List ℕ)) → RxAt rules name node texts → RxAt rules name n texts) }
{
    load_rest(alloc, node, rules)
}

// The node after a call that was brought to a disk that stands still.
fn load_halted(
    alloc: Global,
    node: RxNode<StillDisk>,
    rules: RxRules,
    before: usize,
) -> Result<(RxNode<StillDisk>, Halted<RxAnswer>), RxFault>
    ensures crashed { IfOk result (λ r. (name : List ℕ) (texts : List (List ℕ)) → (is_short node.kept.store.journal.written ≡ false → RxRests name node texts)
        → RxAt rules name r.0 texts × (r.1 ≡ Crashed (nat_lt before (length texts)))) }
    ensures full { (n : ℕ) → IsErrOf result (RxFault.Full n) → ⊥ }
{
    match load_rest(alloc, node, rules) {
        Ok(again) => {
            let kept = again.tokens() > before;
            Ok((again, Halted::Crashed { kept }))
        }
        Err(Memory) => Err(RxFault::Memory),
    }
}

// Makes a call while the disk stands still; none where it was brought to the disk, so that the node has to be loaded again.
fn take_halted(node: &mut RxNode<StillDisk>, call: &RxCall) -> Result<Option<RxAnswer>, RxFault>
    ensures taken { IfOk result (λ o. (rules : Settings) (name : List ℕ) (texts : List (List ℕ)) (calls fill : ℕ) → RxAt rules name node.old texts
        → StopsAfter true calls fill (stop node.old.kept.store.journal.written) → RxTaken rules name texts call.now (rests_with_it calls fill) node.new o) }
    ensures full { (n : ℕ) → IsErrOf result (RxFault.Full n) → (rules : Settings) (name : List ℕ) (texts : List (List ℕ)) → RxAt rules name node.old texts → RxPasses rules name texts call.now n }
{
    let before = node.tokens();
    match node.take(0, call) {
        Ok(answer) => Ok(answered(node, before, answer)),
        Err(RxFault::Store) => Ok(None),
        Err(fault) => Err(fault),
    }
}

// The answer of a call after which the journal has so many records more than before, where it has no more. The disk stands
// still no longer then.
fn answered(node: &mut RxNode<StillDisk>, before: usize, answer: RxAnswer) -> Option<RxAnswer>
    ensures idle { length node.old.kept.entries ≡ before → (result ≡ Some answer) × ReadsBoth node.old.kept.store node.new.kept.store × (node.new.rules ≡ node.old.rules) × (node.new.kept.state ≡ node.old.kept.state) × (node.new.kept.entries ≡ node.old.kept.entries) }
    ensures made { length node.old.kept.entries ≡ before + 1 → (result ≡ None) × (node.new ≡ node.old) }
{
    if node.tokens() > before {
        drop(answer);
        return None;
    }
    node.stop_after(u64::MAX, 0);
    Some(answer)
}

/// Makes a call while the node's disk stands still after so many of its calls. Where the call is brought to the disk, the
/// node is loaded again from what the disk rests with.
///
/// `Full` tells the number that would pass 2^62, as without the stop. It never answers `Store`.
pub fn stop_rx(
    alloc: Global,
    node: RxNode<StillDisk>,
    rules: RxRules,
    call: &RxCall,
    calls: u64,
    fill: u8,
) -> Result<(RxNode<StillDisk>, Halted<RxAnswer>), RxFault>
    requires { calls ≤ 4 }
    ensures halted { IfOk result (λ r. (name : List ℕ) (texts : List (List ℕ)) → RxAt rules name node texts → RxHalted rules name texts call.now (rests_with_it calls fill) r.0 r.1) }
    ensures full { (n : ℕ) → IsErrOf result (RxFault.Full n) → (name : List ℕ) (texts : List (List ℕ)) → RxAt rules name node texts → RxPasses rules name texts call.now n }
{
    let mut node = node;
    let before = node.tokens();
    node.stop_after(calls, fill);
    match take_halted(&mut node, call) {
        Ok(Some(answer)) => Ok((node, Halted::Answered(answer))),
        Ok(None) => load_halted(alloc, node, rules, before),
        Err(fault) => {
            let (_, _) = node.into_disks();
            Err(fault)
        }
    }
}
