//! One watch of either server, over any disk and any door: that a node moves between threads is told here once, by its fields.

ghost use Rattle.std.specs.Prelude.{◌≡◌, None};

use sig_counts::Counts;
use sig_links::Door;
use sig_outside::Disk;
use sig_rxend::Receiver;
use sig_rxnode::{RxNode, RxTurn};
use sig_txend::{Company, Transmitter};
use sig_txnode::{Turn, TxNode};
use sig_watch::{WatchEnd, serve_watch};
use std::alloc::Global;
use std::sync::Wait;
use std::thread::Threads;

/// One watch of a transmitter, with what its links and errands know together before it and after it.
pub fn watch_transmitter<R: Threads + Wait + Sync, D: Disk + Send, A: Door>(
    alloc: Global,
    rt: &R,
    node: TxNode<D>,
    company: Company,
    door: &mut A,
) -> (WatchEnd<TxNode<D>>, Company)
    requires { node.store.broken_at ≡ None }
{
    serve_watch::<Transmitter<D>, R, A>(alloc, rt, node, company, door)
}

/// One watch of a receiver that has counted nothing yet.
pub fn watch_receiver<R: Threads + Wait + Sync, D: Disk + Send, A: Door>(
    alloc: Global,
    rt: &R,
    node: RxNode<D>,
    door: &mut A,
) -> WatchEnd<RxNode<D>>
    requires { node.kept.store.broken_at ≡ None }
{
    watch_counting(alloc, rt, node, Counts::new(alloc), door)
}

// One watch of a receiver, over what was counted before it.
fn watch_counting<R: Threads + Wait + Sync, D: Disk + Send, A: Door>(
    alloc: Global,
    rt: &R,
    node: RxNode<D>,
    counts: Counts,
    door: &mut A,
) -> WatchEnd<RxNode<D>>
    requires { node.kept.store.broken_at ≡ None }
{
    serve_watch::<Receiver<D>, R, A>(alloc, rt, node, counts, door).0
}
