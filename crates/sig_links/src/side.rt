ghost use Rattle.std.specs.Prelude.{◌≡◌, ℕ, ◌+◌, Some, IfOk, OnErr};
ghost use Rattle.sig_outside.specs.Causes.{HasCause};
ghost use Rattle.sig_links.specs.Views.{SideView};
ghost use Rattle.sig_links.specs.Told.{Begins, DialsNext, Gathers, GivesTime, Lends, LinkPlan, Sent, TakesBack, sent_of};

use crate::Link;
use sig_outside::{Failed, Place};

/// What stands beside a link while it is served: it dials further links, and tells the time.
///
/// Its meaning `view` has the links that its dials will give, the times that it will tell and the links that were given
/// back to it, each where it is told, and the count of the dials that failed and of the faults of the links that were
/// given back (it stands at 2^64 - 1). `out` counts the links that are out, where those that come back are told. `plan`
/// is what a link will give.
pub trait Side {
    type L: Link;

    ghost view: { Self → SideView };

    ghost out: { Self → ℕ };

    ghost plan: { Self.L → LinkPlan };

    /// A link to this place. Nothing is written to it yet, and it has met no fault. `Failed` raises the count by one, and
    /// takes none of the links ahead.
    fn dial(&mut self, place: &Place) -> Result<Self::L, Failed>
        ensures place { IfOk result (λ link. Self.L.dialled link ≡ Some (place.now.host, place.now.port)) }
        ensures next { IfOk result (λ link. DialsNext (view self.old).ahead (view self.new).ahead (plan link) (Self.L.left link)) }
        ensures none { OnErr result ((view self.new).ahead ≡ (view self.old).ahead) }
        ensures begins { IfOk result (λ link. Begins (view self.old).sent (Self.L.written link)) }
        ensures whole { IfOk result (λ link. (Self.L.Source.faults link ≡ 0) × (Self.L.Sink.faults link ≡ 0)) }
        ensures lends { IfOk result (λ link. Lends (view self.old).sent (out self.old) (out self.new)) }
        ensures keeps { OnErr result (out self.new ≡ out self.old) }
        ensures others { ((view self.new).times ≡ (view self.old).times) × ((view self.new).sent ≡ (view self.old).sent) }
        ensures cause { HasCause (view self.old).faults (view self.new).faults result };

    /// A round begins whose dials, with what is then done over their links, have one bound in time together, which the side
    /// has of its own. A dial that comes later fails. It changes nothing that is told.
    fn begin_round(&mut self)
        ensures view { view self.new ≡ view self.old }
        ensures out { out self.new ≡ out self.old };

    /// Tells a line, which needs no end of line, to whoever runs the program. Of the lines about one topic at most one a minute
    /// is told, with how many were left out since; a line without a topic always is. No contract says that it comes, and it
    /// changes nothing that is told.
    fn note(&mut self, topic: Option<&str>, line: &str)
        ensures view { view self.new ≡ view self.old }
        ensures out { out self.new ≡ out self.old };

    /// The time now, in seconds since the start of 1970.
    fn now(&mut self) -> u64
        ensures time { GivesTime (view self.old).times (view self.new).times result }
        ensures others { ((view self.new).ahead ≡ (view self.old).ahead) × ((view self.new).sent ≡ (view self.old).sent) × (out self.new ≡ out self.old) }
        ensures faults { (view self.new).faults ≡ (view self.old).faults };

    /// Takes back a link that was dialled and is used no more, and counts the faults that it met.
    fn back(&mut self, link: Self::L)
        ensures back { TakesBack (view self.old).sent (view self.new).sent (out self.old) (out self.new) (sent_of (Self.L.dialled link) (Self.L.written link)) }
        ensures others { ((view self.new).ahead ≡ (view self.old).ahead) × ((view self.new).times ≡ (view self.old).times) }
        ensures faults { Gathers (view self.old).faults (view self.new).faults (Self.L.Source.faults link + Self.L.Sink.faults link) };
}
