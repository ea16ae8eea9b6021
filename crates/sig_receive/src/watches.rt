//! The watches of a run, one after the other.

ghost use Rattle.std.specs.Prelude.{◌≡◌, ◌<◌, IfNone, IfSome, None, Some, if◌then◌else◌};
ghost use Rattle.sig_opening.specs.Ends.{BreaksAfter};
ghost use Rattle.sig_opening.specs.Watches.{GoesOn, RunsTo, StopsAt};
ghost use Rattle.sig_receive.specs.Door.{with_door};
ghost use Rattle.sig_receive.specs.Watches.{IsWatch, WhyEnded, tells_of};
ghost use Rattle.sig_rxend.specs.Ends.{Follows, IsOneHistory};
ghost use Rattle.sig_watch.specs.Ends.{HandsBack, IfReport};

use crate::ServeEnd;
use sig_counts::Counts;
use sig_links::Door;
use sig_outside::Disk;
use sig_rxend::Receiver;
use sig_rxnode::RxNode;
use sig_watch::{WatchEnd, serve_watch};
use std::alloc::Global;
use std::mem::replace;
use std::sync::Wait;
use std::thread::Threads;

/// A node after its watches, and how they ended.
pub struct Served<D: Disk> {
    pub node: RxNode<D>,
    pub end: ServeEnd,
}

// A node after one watch, and how the run ends with it, where it doesn't go on.
struct Watched<D: Disk> {
    node: RxNode<D>,
    end: Option<ServeEnd>,
}

/// Runs so many watches, or fewer: it goes on after none that reports a shut door, nor after one that fails or in which
/// something differs.
pub fn run_watches<R: Threads + Wait + Sync, D: Disk + Send, A: Door>(
    alloc: Global,
    rt: &R,
    node: RxNode<D>,
    watches: u64,
    door: &mut A,
) -> Served<D>
    requires { node.kept.store.broken_at ≡ None }
    ensures runs { RunsTo (IsWatch node.rules) tells_of result.end watches
        (with_door D.told node (A.view door.old))
        (with_door D.told result.node (A.view door.new)) }
    ensures breaks { BreaksAfter result.end result.node.kept.store.broken_at }
    ensures network { result.end ≡ ServeEnd.NetworkFailed → 0 < (A.view door.new).faults }
{
    let mut node = node;
    let mut counts = Counts::new(alloc);
    for _ in 0..watches {
        let Watched { node: next, end } = run_watch(alloc, rt, node, &mut counts, door);
        node = next;
        if let Some(end) = end {
            return Served { node, end };
        }
    }
    Served {
        node,
        end: ServeEnd::Done,
    }
}

// Runs one watch.
fn run_watch<R: Threads + Wait + Sync, D: Disk + Send, A: Door>(
    alloc: Global,
    rt: &R,
    node: RxNode<D>,
    counts: &mut Counts,
    door: &mut A,
) -> Watched<D>
    requires { node.kept.store.broken_at ≡ None }
    ensures rules { result.node.rules ≡ node.rules }
    ensures goes_on { IfNone result.end (GoesOn (IsWatch node.rules) tells_of
        (with_door D.told node (A.view door.old))
        (with_door D.told result.node (A.view door.new))) }
    ensures stops { IfSome result.end (λ end. StopsAt (IsWatch node.rules) tells_of end
        (with_door D.told node (A.view door.old))
        (with_door D.told result.node (A.view door.new))) }
    ensures whole { IfNone result.end (result.node.kept.store.broken_at ≡ None) }
    ensures breaks { IfSome result.end (λ end. BreaksAfter end result.node.kept.store.broken_at) }
    ensures network { IfSome result.end (λ end. end ≡ ServeEnd.NetworkFailed → 0 < (A.view door.new).faults) }
{
    match one_watch(alloc, rt, node, counts, door) {
        WatchEnd::Done { node, report } => Watched {
            node,
            end: end_after(report.shut),
        },
        WatchEnd::DoorFault { node, report: _ } => Watched {
            node,
            end: Some(ServeEnd::NetworkFailed),
        },
        WatchEnd::Broken { node, report: _ } => Watched {
            node,
            end: Some(ServeEnd::StoreFailed),
        },
        // Its node isn't broken, so the run goes on.
        WatchEnd::Halted { node, report: _ } => Watched { node, end: None },
        WatchEnd::Disagree {
            node,
            differ,
            report: _,
        } => Watched {
            node,
            end: Some(ServeEnd::Disagree(differ)),
        },
        WatchEnd::Memory { node } => Watched {
            node,
            end: Some(ServeEnd::Memory),
        },
    }
}

// One watch, over what was counted, which goes from watch to watch.
fn one_watch<R: Threads + Wait + Sync, D: Disk + Send, A: Door>(
    alloc: Global,
    rt: &R,
    node: RxNode<D>,
    counts: &mut Counts,
    door: &mut A,
) -> WatchEnd<RxNode<D>>
    requires { node.kept.store.broken_at ≡ None }
    ensures follows { IfReport result (λ now report. Follows D.told node now) }
    ensures history { IfReport result (λ now report. IsOneHistory D.told D.seen D.may_leave now) }
    ensures links { IfReport result (λ now report. WhyEnded node.rules now report result (A.view door.old) (A.view door.new)) }
    ensures memory { HandsBack node door.old door.new result }
{
    let counted = replace(counts, Counts::new(alloc));
    let (ended, counted) = serve_watch::<Receiver<D>, R, A>(alloc, rt, node, counted, door);
    *counts = counted;
    ended
}

// How the run ends after a watch that reports so of its door.
fn end_after(shut: bool) -> Option<ServeEnd>
    ensures { result ≡ (if shut then Some ServeEnd.Done else None) }
{
    if shut { Some(ServeEnd::Done) } else { None }
}
