ghost use Rattle.std.specs.Prelude.{ℕ, Bool};
ghost use Rattle.sig_serving.specs.Line.{seen};
ghost use Rattle.sig_watch.specs.Sights.{Sight, errand, sight};

use sig_links::{Link, Side};
use std::sync::Wait;

/// What serves the links of a watch, several at the same time.
///
/// Its meaning `serves` says how a link comes to a log: the link's number, its log, and what is seen of the link and of its
/// side before and after; and likewise how an errand does, which has a side alone. `answered` says that it was asked whether a
/// link or an errand of this number may be begun, and answered so.
pub trait Host {
    type Log: Send + Drop;

    ghost serves: { Self → ℕ → Self.Log → Sight → Sight → Type 0 };

    ghost answered: { Self → ℕ → Bool → Type 0 };

    /// Whether a link may be accepted, or an errand begun, which would have this number. It may wait for the links that are
    /// served.
    fn lets_in<R: Wait>(&self, rt: &R, number: u32) -> bool
        ensures { answered self.now number result };

    /// Whether an errand is to be done at this time, in seconds since 1970: what the server has to do by itself. Where it says so,
    /// the errand is begun next. It may wait for the links that are served.
    fn wants_errand<R: Wait>(&self, rt: &R, now: u64) -> bool;

    /// It is told that the system lacked something for a while that an accept needs.
    fn accept_lacked<R: Wait>(&self, rt: &R);

    /// Does an errand under this number. It may wait for links that it dials, and for others that are served.
    fn errand<R: Wait, S: Side>(&self, rt: &R, number: u32, side: &mut S) -> Self::Log
        ensures { serves self.now number result (errand (S.view side.old)) (errand (S.view side.new)) };

    /// Serves a link under this number. It may wait for the link, for those that it dials, and for others that are served.
    fn serve<R: Wait, L: Link, S: Side>(
        &self,
        rt: &R,
        number: u32,
        link: &mut L,
        side: &mut S,
    ) -> Self::Log
        ensures { serves self.now number result
            (sight (seen L.left L.written L.Source.faults L.Sink.faults link.old) (S.view side.old))
            (sight (seen L.left L.written L.Source.faults L.Sink.faults link.new) (S.view side.new)) };
}
