//! A tick over a transmitter's node.

ghost use Rattle.std.specs.Prelude.{◌≡◌, None};
ghost use Rattle.sig_tick.specs.OverNode.{Ticked};
ghost use Rattle.sig_txnode.specs.Node.{IsNode, files_told};

use crate::tick_over;
use sig_courier::{Attempt, Schedule};
use sig_journal::NodeFault;
use sig_json::Items;
use sig_links::Side;
use sig_outside::Disk;
use sig_terms::Rules;
use sig_txnode::TxNode;
use std::alloc::Global;
use std::sync::Wait;

/// A tick over a node that isn't broken: tries each of its push streams that is due, and answers the attempts.
///
/// The time is read once. A watch of the node is opened, so that its turns are those of this tick, of link 0: one a client, in
/// order of name, for the client's streams; and for each push stream among these that is due a Hand turn, and the Settle turns
/// of what it handed. After a dial or link fault, a response that is none, or a token without a gateway to its endpoint the
/// stream's attempt ends, and the next stream is tried. `Store` and `Full` come as of `TxNode::take`, at the first turn that is
/// refused so; `Memory` where memory ran out. What was settled before a fault stays, and the attempts until then are noted.
pub fn tick<R: Wait, D: Disk, S: Side>(
    alloc: Global,
    rt: &R,
    node: &mut TxNode<D>,
    schedule: &mut Schedule,
    rules: &Rules,
    side: &mut S,
) -> Result<Items<Attempt>, NodeFault>
    requires whole { node.old.store.broken_at ≡ None }
    requires rules { rules.now ≡ node.old.rules }
    ensures ticked { Ticked (S.view side.old) (S.view side.new) node.old node.new schedule.old schedule.new result }
    ensures files { files_told D.told node.new ≡ files_told D.told node.old }

    // What holds of every node: the turns are one history, each answered by the table.
    ensures kept { IsNode D.told D.seen D.may_leave node.new }
{
    node.open_watch();
    let attempts = tick_over(alloc, rt, node, schedule, rules, side);
    let _ = node.broken_at();
    attempts
}
