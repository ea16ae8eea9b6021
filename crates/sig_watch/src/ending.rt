ghost use Rattle.std.specs.Prelude.{◌≡◌, MatchOption, length};
ghost use Rattle.sig_serving.specs.Stops.{is_shut};
ghost use Rattle.sig_watch.specs.Ends.{EndsBy, IfReport, IsReported};
ghost use Rattle.sig_watch.specs.Receipts.{AreSettled, IsUnlike};

use crate::{Report, WatchEnd};
use sig_book::Naming;
use sig_desk::{Desk, Receipt};
use sig_logs::{Differ, Logged, Watched};
use sig_serving::Stop;

/// The end of a watch over this node, of which this differs, if anything: that is told before every other end.
pub fn end_of<N: Watched>(node: N, differ: Option<Differ>, stop: Stop, links: u32) -> WatchEnd<N>
    ensures gives { IfReport result (λ now report. (now ≡ node) × (report.links ≡ links) × (report.shut ≡ is_shut stop)) }
    ensures ends { EndsBy N.broken stop differ result }
    ensures reported { IsReported result }
{
    let is_broken = node.is_broken();
    let report = Report {
        links,
        shut: stop.is_shut(),
    };
    match differ {
        Some(differ) => WatchEnd::Disagree {
            node,
            differ,
            report,
        },
        None if is_broken => WatchEnd::Broken { node, report },
        None => match stop {
            Stop::Spent | Stop::Shut => WatchEnd::Done { node, report },
            Stop::Failed => WatchEnd::DoorFault { node, report },
            Stop::Halted => WatchEnd::Halted { node, report },
        },
    }
}

/// What differs at the end of a watch, if anything: at the place 0, the first receipt that isn't of this desk's history; or
/// what the desk tells.
pub fn differ_of<J: Naming, G: Logged<Turn: Drop>>(
    desk: &Desk<J, G, G::Turn>,
    receipts: &[Receipt<J, G>],
    links: u32,
) -> Option<Differ>
    ensures { MatchOption result (AreSettled links desk.now receipts.now) (IsUnlike G.Turn.link_of links desk.now receipts.now) }
{
    for receipt in receipts {
        if !desk.shows(receipt) {
            return Some(Differ::Turn {
                link: receipt.number(),
                place: 0,
            });
        }
    }
    desk.settle(links)
}
