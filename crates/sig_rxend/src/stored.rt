use crate::Receiver;
use sig_journal::LoadRefused;
use sig_opening::Stored;
use sig_outside::Disk;
use sig_rxnode::{RxNode, RxRules};
use std::alloc::Global;

impl<D: Disk> Stored for Receiver<D> {
    ghost use Rattle.std.specs.Prelude.{ℕ, List, ⊤};
    ghost use Rattle.sig_receiver.specs.Receiver.{Received};
    ghost use Rattle.sig_rxend.specs.Stores.{held_by, state_of, with_text};

    type D = D;

    ghost State = { Received };

    ghost Change = { List ℕ };

    ghost means = { state_of };

    ghost after = { with_text };

    ghost is_proper = { λ _. ⊤ };

    ghost is_sound = { λ _. ⊤ };

    ghost held = { held_by };

    fn load(alloc: Global, a: D, b: D, rules: RxRules) -> Result<RxNode<D>, LoadRefused<D>> {
        RxNode::load(alloc, a, b, rules)
    }

    fn into_disks(node: RxNode<D>) -> (D, D) {
        // What its files tell rests on what holds of every node and of every disk.
        let _ = node.broken_at();
        node.into_disks()
    }
}
