use crate::Transmitter;
use sig_journal::LoadRefused;
use sig_opening::Stored;
use sig_outside::Disk;
use sig_terms::Rules;
use sig_txnode::TxNode;
use std::alloc::Global;

impl<D: Disk> Stored for Transmitter<D> {
    ghost use Rattle.sig_calls.specs.Proper.{IsProperRules};
    ghost use Rattle.sig_history.specs.Owed.{Sum};
    ghost use Rattle.sig_history.specs.Whole.{IsWhole};
    ghost use Rattle.sig_terms.specs.declared.fact.Fact.{Fact};
    ghost use Rattle.sig_txend.specs.Stores.{held_by, state_of, with_fact};

    type D = D;

    ghost State = { Sum };

    ghost Change = { Fact };

    ghost means = { state_of };

    ghost after = { with_fact };

    ghost is_proper = { IsProperRules };

    ghost is_sound = { IsWhole };

    ghost held = { held_by };

    fn load(alloc: Global, a: D, b: D, rules: Rules) -> Result<TxNode<D>, LoadRefused<D>> {
        match TxNode::load(alloc, a, b, rules) {
            Ok(node) => {
                // What its state is rests on what holds of every node.
                let _ = node.broken_at();
                Ok(node)
            }
            Err(refused) => Err(refused),
        }
    }

    fn into_disks(node: TxNode<D>) -> (D, D) {
        // What its files tell rests on what holds of every node and of every disk.
        let _ = node.broken_at();
        node.into_disks()
    }
}
