ghost use Rattle.std.specs.Prelude.{◌≡◌};
ghost use Rattle.sig_serving.specs.Line.{seen};
ghost use Rattle.sig_watch.specs.Sights.{Sight, errand, guest, sight};

use crate::{Guest, Host};
use sig_links::{Link, Side};
use std::sync::Wait;

/// What is served of a door, as one type. Its meaning `seen_of` is what is seen of its link and side.
pub trait Visitor {
    ghost seen_of: { Self → Sight };

    /// Has the host serve it under this number, and ends the link, if it is one.
    fn serve<R: Wait, H: Host>(&mut self, rt: &R, host: &H, number: u32) -> H::Log
        ensures serves { H.serves host.now number result (seen_of self.old) (seen_of self.new) }
        ensures kind { (seen_of self.new).is_errand ≡ (seen_of self.old).is_errand };
}

/// A visitor that came by links and sides of these kinds.
pub trait Comes<L: Link, S: Side>: Visitor {
    /// A link that was just accepted, with its side.
    fn of(link: L, side: S) -> Self
        ensures { Self.seen_of result ≡ sight (seen L.left L.written L.Source.faults L.Sink.faults link) (S.view side) };

    /// An errand by this side.
    fn of_errand(side: S) -> Self
        ensures { Self.seen_of result ≡ errand (S.view side) };

    /// What it is.
    fn into_guest(self) -> Guest<L, S>
        ensures { guest (seen L.left L.written L.Source.faults L.Sink.faults) S.view result ≡ Self.seen_of self };
}

impl<L: Link, S: Side> Visitor for Guest<L, S> {
    ghost use Rattle.sig_serving.specs.Line.{seen};
    ghost use Rattle.sig_watch.specs.Sights.{guest};

    ghost seen_of = { guest (seen L.left L.written L.Source.faults L.Sink.faults) S.view };

    fn serve<R: Wait, H: Host>(&mut self, rt: &R, host: &H, number: u32) -> H::Log {
        match self {
            Guest::Link { link, side } => {
                let log = host.serve(rt, number, link, side);
                link.finish();
                log
            }
            Guest::Errand { side } => host.errand(rt, number, side),
        }
    }
}

impl<L: Link, S: Side> Comes<L, S> for Guest<L, S> {
    fn of(link: L, side: S) -> Guest<L, S> {
        Guest::Link { link, side }
    }

    fn of_errand(side: S) -> Guest<L, S> {
        Guest::Errand { side }
    }

    fn into_guest(self) -> Guest<L, S> {
        self
    }
}
