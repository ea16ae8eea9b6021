ghost use Rattle.std.specs.Prelude.{◌≡◌, None, IfOk, OnErr};
ghost use Rattle.sig_outside.specs.Causes.{HasCause};
ghost use Rattle.sig_links.specs.Views.{DoorView};
ghost use Rattle.sig_links.specs.Told.{AcceptsNext, Begins, Coming, IfLink, IfShut, IfWaited, IsShut, Lends, LinkPlan, Served, TakesBack, served_of};

use crate::{Accepted, Link, Side};
use sig_outside::Failed;

/// Where links come in, each with a side beside it.
///
/// Its meaning `view` has the links that its accepts will give and those that were given back to it, in order, each where
/// it is told; how many links are out, where those that come back are told; the host and port where it listens; and the
/// count of the accepts that failed (it stands at 2^64 - 1). `plan` is what a link will give.
pub trait Door {
    type L: Link + Send + Drop;

    type S: Side<L: Send> + Send + Drop;

    ghost view: { Self → DoorView };

    ghost plan: { Self.L → LinkPlan };

    /// The next link, with its side. Nothing is written to the link and nothing is sent by the side yet, and neither has met
    /// a fault. `Shut` comes where no further link will come, and `Waited` where none came in the time that an accept waits,
    /// or the system lacks something for a while, which a door never answers that tells what is coming. `Failed` raises the count by one, and takes none of the links
    /// that are coming.
    fn accept(&mut self) -> Result<Accepted<Self::L, Self::S>, Failed>
        ensures next { IfOk result (λ answer. IfLink answer (λ link side. AcceptsNext (view self.old).coming (view self.new).coming (plan link) (Self.L.left link) (Self.S.view side).ahead (Self.S.view side).times)) }
        ensures shut { IfOk result (λ answer. IfShut answer (IsShut (view self.old).coming × ((view self.new).coming ≡ (view self.old).coming) × ((view self.new).out ≡ (view self.old).out))) }
        ensures waited { IfOk result (λ answer. IfWaited answer (((view self.old).coming ≡ None) × ((view self.new).coming ≡ None) × ((view self.new).out ≡ (view self.old).out))) }
        ensures none { OnErr result (((view self.new).coming ≡ (view self.old).coming) × ((view self.new).out ≡ (view self.old).out)) }
        ensures begins { IfOk result (λ answer. IfLink answer (λ link side. Begins (view self.old).served (Self.L.written link) × Begins (view self.old).served (Self.S.view side).sent)) }
        ensures whole { IfOk result (λ answer. IfLink answer (λ link side. (Self.L.Source.faults link ≡ 0) × (Self.L.Sink.faults link ≡ 0) × ((Self.S.view side).faults ≡ 0))) }
        ensures accepted { IfOk result (λ answer. IfLink answer (λ link side. Self.L.dialled link ≡ None)) }
        ensures lends { IfOk result (λ answer. IfLink answer (λ link side. Lends (view self.old).served (view self.old).out (view self.new).out)) }
        ensures others { ((view self.new).served ≡ (view self.old).served) × ((view self.new).place ≡ (view self.old).place) }
        ensures cause { HasCause (view self.old).faults (view self.new).faults result };

    /// Takes back a link that was served, with its side.
    fn back(&mut self, link: Self::L, side: Self::S)
        ensures back { TakesBack (view self.old).served (view self.new).served (view self.old).out (view self.new).out (served_of (Self.L.written link) (Self.S.view side).sent) }
        ensures others { ((view self.new).coming ≡ (view self.old).coming) × ((view self.new).place ≡ (view self.old).place) }
        ensures faults { (view self.new).faults ≡ (view self.old).faults };

    /// A side beside no link, for what a server does by itself. It isn't given back, and nothing of it is told.
    fn own_side(&mut self) -> Self::S
        ensures { view self.new ≡ view self.old };

    /// Asks the links that are out to end soon, since none is accepted until they have. It changes nothing that is told.
    fn hurry(&mut self)
        ensures { view self.new ≡ view self.old };
}
