//! What is told of a run: a line as it begins, and one as it ends.

ghost use Rattle.std.specs.Prelude.{◌≡◌, ◌<◌, IfOk, None};
ghost use Rattle.sig_notes.specs.Lines as spec;
ghost use Rattle.sig_opening.specs.Ends.{BreaksAfter};
ghost use Rattle.sig_opening.specs.Watches.{RunsTo};
ghost use Rattle.sig_serve.specs.Beginning.{held_by};
ghost use Rattle.sig_serve.specs.Door.{with_door};
ghost use Rattle.sig_serve.specs.Watches.{IsWatch, tells_of};

use crate::watches::Served;
use crate::{ServeEnd, watches};
use sig_json::{Memory, Text};
use sig_links::Door;
use sig_notes::{Held, ended, serving, tell};
use sig_outside::{Disk, Place};
use sig_txnode::TxNode;
use std::alloc::Global;
use std::sync::Wait;
use std::thread::Threads;

/// Runs so many watches as `watches` does, over a door at this place, and tells how the run begins and why it ends.
pub fn run_watches<R: Threads + Wait + Sync, D: Disk + Send, A: Door>(
    alloc: Global,
    rt: &R,
    node: TxNode<D>,
    place: &Place,
    watches: u64,
    door: &mut A,
) -> Served<D>
    requires { node.store.broken_at ≡ None }
    ensures runs { RunsTo (IsWatch node.rules) tells_of result.end watches
        (with_door D.told node (A.view door.old))
        (with_door D.told result.node (A.view door.new)) }
    ensures breaks { BreaksAfter result.end result.node.store.broken_at }
    ensures network { result.end ≡ ServeEnd.NetworkFailed → 0 < (A.view door.new).faults }
{
    let mut side = door.own_side();
    tell(&mut side, None, beginning(alloc, &node, place));
    let served = watches::run_watches(alloc, rt, node, watches, door);
    tell(&mut side, None, ended(alloc, served.end.cause()));
    served
}

// The line with which a transmitter begins to serve.
fn beginning<D: Disk>(alloc: Global, node: &TxNode<D>, place: &Place) -> Result<Text, Memory>
    ensures { IfOk result (λ line.
        line ≡ spec.serving node.now.rules.issuer place.now.host place.now.port (held_by node.now)) }
{
    let issuer = node.rules().issuer.as_str();
    let held = held_now(node);
    serving(alloc, issuer, place.host.as_str(), place.port, held)
}

// What a node holds.
fn held_now<D: Disk>(node: &TxNode<D>) -> Held
    ensures { result ≡ held_by node.now }
{
    Held {
        streams: node.streams() as u64,
        owed: node.owed_in_all(),
        records: node.records(),
    }
}
