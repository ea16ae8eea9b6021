ghost use Rattle.std.specs.Prelude.{◌≡◌, ◌⊎◌, ◌<◌, ℕ, List, Result, Err, IfErr, IfOk, IsTrue, is_some, true};
ghost use Rattle.sig_journal.specs.declared.fault.LoadFault.{LoadFault};
ghost use Rattle.sig_journal.specs.declared.fault.LoadFault.TheVariants.{Memory, Store};
ghost use Rattle.sig_outside.specs.Causes.{Rose};
ghost use Rattle.sig_opening.specs.Stores.{FilesTell, Held, Loads, TellsAs};

use sig_journal::LoadRefused;
use sig_outside::Disk;
use sig_watch::Served;
use std::alloc::Global;

/// A kind of node that is served and stands on a store: it is loaded from the two files, and gives them back.
///
/// Its meanings: `State` is what a store stands for, and `means` says which state two files stand for, or where they are
/// damaged; `after` is the state with one more `Change`; `is_proper` and `is_sound` say what holds of the rules that are
/// given, and of a state that was loaded; and `held` is what a node tells of its store.
pub trait Stored: Served {
    type D: Disk;

    ghost State: { Type 0 };

    ghost Change: { Type 0 };

    ghost means: { List ℕ → List ℕ → Result State LoadFault };

    ghost after: { State → Change → State };

    ghost is_proper: { Self.Rules → Type 0 };

    ghost is_sound: { State → Type 0 };

    ghost held: { Self.Node → Held Self.D State Self.Rules };

    /// The node of a store. `Damaged` comes exactly where the store is damaged, and `Store` only where a disk has counted a
    /// fault.
    fn load(
        alloc: Global,
        a: Self::D,
        b: Self::D,
        rules: Self::Rules,
    ) -> Result<Self::Node, LoadRefused<Self::D>>
        requires { is_proper rules }
        ensures loads { IfOk result (λ node. Loads Self.D.told Self.D.seen means is_sound rules a b (held node)) }
        ensures damaged { IfErr result (λ r. IsTrue (Self.D.told a) → IsTrue (Self.D.told b) → (r.fault ≡ Memory) ⊎ (r.fault ≡ Store) ⊎ (means (Self.D.seen a) (Self.D.seen b) ≡ Err r.fault)) }
        ensures store { IfErr result (λ r. r.fault ≡ Store → Rose (Self.D.faults a) (Self.D.faults r.a) ⊎ Rose (Self.D.faults b) (Self.D.faults r.b)) }
        ensures same { IfErr result (λ r. TellsAs Self.D.told Self.D.seen a r.a × TellsAs Self.D.told Self.D.seen b r.b) };

    /// Both files, the first and the second. Where the node is broken, one of them has counted a fault. It takes no memory.
    fn into_disks(node: Self::Node) -> (Self::D, Self::D)
        ensures disks { result ≡ ((held node).first, (held node).second) }
        ensures tells { FilesTell Self.D.told Self.D.seen means after (held node) }
        ensures counted { is_some (held node).broken_at ≡ true → (0 < Self.D.faults (held node).first) ⊎ (0 < Self.D.faults (held node).second) };
}
