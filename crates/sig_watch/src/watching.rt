//! A watch from its opening to its end.

ghost use Rattle.std.specs.Prelude.{◌≡◌, ◌≤◌, [], false, IfSome, List, Option, Some, length};
ghost use Rattle.sig_desk.specs.Keeping.{IsKept};
ghost use Rattle.sig_logs.specs.declared.difference.Differ.{Differ};
ghost use Rattle.sig_serving.specs.Stops.{is_shut};
ghost use Rattle.sig_watch.specs.Attending.{Attends};
ghost use Rattle.sig_watch.specs.Ends.{Compares, EndsBy, HandsBack, IfReport, IsReported, WhyEnded};
ghost use Rattle.sig_watch.specs.Receipts.{AreOf, ServedBy};
ghost use Rattle.sig_watch.specs.declared.limits.TheConstants.{LINKS_PER_WATCH};

use crate::limits::LINKS_PER_WATCH;
use crate::{Attended, Host, Opened, Room, Served, Shared, WatchEnd, attend, differ_of, end_of};
use sig_book::{Book, Naming, Opened as OpenedBook};
use sig_desk::{Desk, Receipt};
use sig_json::Memory;
use sig_links::{Door, Link, Side};
use sig_logs::{Logged, Watched};
use std::alloc::Global;
use std::marker::Brand;
use std::snapshot::Snapshot;
use std::sync::{Mutex, Wait};
use std::thread::Threads;

// What serves the links of a watch: the rules that it lends to each, and the node under its lock.
struct Locked<E: Served, O: Opened<E::Node> + Naming> {
    alloc: Global,
    rules: E::Rules,
    node: Mutex<Shared<E, O>>,
}

impl<E: Served, O: Opened<E::Node> + Naming> Locked<E, O> {
    // A node whose watch is opened here, its rules, and its desk.
    fn new(
        alloc: Global,
        node: E::Node,
        rules: E::Rules,
        desk: Desk<O, E::Log, <E::Node as Watched>::Turn>,
        company: E::Company,
        book: Book<O, E::Log>,
    ) -> Locked<E, O>
        requires same { Some node ≡ O.before }
        requires whole { E.Node.broken node ≡ false }
        requires none { IsKept E.Node.Turn.link_of E.Log.number_of E.Log.turns_of desk [] }
        ensures { result.rules ≡ rules }
    {
        let before = Snapshot::of(&node);
        let mut node = node;
        E::open_watch(&mut node);
        Locked {
            alloc,
            rules,
            node: Mutex::new(Shared::new(node, before, desk, company, book)),
        }
    }

    // The node, its desk and what is known beside it, once no link asks it any more.
    fn into_parts(
        self,
    ) -> (
        E::Node,
        Desk<O, E::Log, <E::Node as Watched>::Turn>,
        E::Company,
    )
        ensures follows { IfSome O.before (λ before. E.follows before result.0) }
        ensures keeps { IsKept E.Node.Turn.link_of E.Log.number_of E.Log.turns_of result.1 (E.Node.turns_of result.0) }
    {
        let Locked {
            alloc: _,
            rules: _,
            node,
        } = self;
        node.into_inner().into_parts()
    }
}

impl<E: Served<Log: Send>, O: Opened<E::Node> + Naming + Send> Host for Locked<E, O> {
    ghost use Rattle.sig_watch.specs.Receipts.{ServedBy};

    type Log = Receipt<O, E::Log>;

    ghost serves = { λ h. ServedBy (E.serves h.rules) E.Log.number_of };

    // A lock hides what the node was when it was asked.
    ghost answered = { λ h number answer. Unit {0} };

    fn lets_in<R: Wait>(&self, rt: &R, _number: u32) -> bool {
        let shared = self.node.lock(rt);
        !(*shared).node.is_broken()
    }

    fn wants_errand<R: Wait>(&self, rt: &R, now: u64) -> bool {
        let mut shared = self.node.lock(rt);
        E::wants_errand(&mut (*shared).company, now)
    }

    fn accept_lacked<R: Wait>(&self, rt: &R) {
        let mut shared = self.node.lock(rt);
        E::accept_lacked(&mut (*shared).company);
    }

    fn errand<R: Wait, S: Side>(&self, rt: &R, number: u32, side: &mut S) -> Receipt<O, E::Log> {
        let log = E::errand(self.alloc, rt, &self.node, &self.rules, number, side);
        let mut shared = self.node.lock(rt);
        (*shared).end(&log)
    }

    fn serve<R: Wait, L: Link, S: Side>(
        &self,
        rt: &R,
        number: u32,
        link: &mut L,
        side: &mut S,
    ) -> Receipt<O, E::Log> {
        let log = E::serve(self.alloc, rt, &self.node, &self.rules, number, link, side);
        let mut shared = self.node.lock(rt);
        (*shared).end(&log)
    }
}

/// Serves the links that a door gives, over a node that isn't broken: `LINKS_PER_WATCH` at most, and `LINKS_AT_ONCE` at any
/// time, each in a thread of its own from when it is accepted. Each is served as `E` serves it, under a number from 1 on in
/// order of acceptance, with the node under its lock; its log is compared with the node's turns of it once it has ended, and
/// both are dropped then; and it goes back to the door with its side. After the door is shut or has failed, or where the node
/// is broken, no further link is accepted, and the watch ends once all have gone back. It may wait for the door, the links,
/// the lock and the threads.
///
/// It ends with `Disagree` where the turns of a log and those of the node aren't the same, and tells one that isn't; else with
/// `Broken` exactly where the node is broken; with `Done` where as many links were served as a watch may have, or the door is
/// shut; with `DoorFault` where the door's count of faults rose; and with `Memory` before the first link is accepted, where
/// the node is as it was.
pub fn serve_watch<
    E: Served<Node: Watched<Turn: Send> + Send, Log: Send, Company: Send> + Send,
    R: Threads + Wait + Sync,
    A: Door,
>(
    alloc: Global,
    rt: &R,
    node: E::Node,
    company: E::Company,
    door: &mut A,
) -> (WatchEnd<E::Node>, E::Company)
    requires { E.Node.broken node ≡ false }

    // The node that is handed back follows the one that was handed in.
    ensures follows { IfReport result.0 (λ now report. E.follows node now) }

    // It is one history since.
    ensures history { IfReport result.0 (λ now report. E.is_history now) }

    // The links were served side by side, and went back to the door; and how the watch ends is by why it accepts no further
    // one, by the comparison of turns and by the node.
    ensures links { IfReport result.0 (λ now report. WhyEnded E.Node.Turn.link_of E.Log.number_of E.Log.turns_of E.Node.turns_of E.Node.broken (E.serves (E.rules_of node)) now report result.0
        (A.view door.old) (A.view door.new)) }

    ensures memory { HandsBack node door.old door.new result.0 }
{
    match E::rules(alloc, &node) {
        Ok(rules) => {
            let book = OpenedBook::new();
            watch::<E, Brand, R, A>(alloc, rt, node, rules, company, book, door)
        }
        Err(Memory) => (WatchEnd::Memory { node }, company),
    }
}

// Serves the links of a watch by these rules, which are lent to each.
fn watch<
    E: Served<Node: Watched<Turn: Send> + Send, Log: Send, Company: Send> + Send,
    O: Opened<E::Node> + Naming + Send,
    R: Threads + Wait + Sync,
    A: Door,
>(
    alloc: Global,
    rt: &R,
    node: E::Node,
    rules: E::Rules,
    company: E::Company,
    book: OpenedBook<E::Log>,
    door: &mut A,
) -> (WatchEnd<E::Node>, E::Company)
    requires same { Some node ≡ O.before }
    requires named { book.seen.book ≡ O.book }
    requires whole { E.Node.broken node ≡ false }
    ensures follows { IfReport result.0 (λ now report. E.follows node now) }
    ensures history { IfReport result.0 (λ now report. E.is_history now) }
    ensures links { IfReport result.0 (λ now report. WhyEnded E.Node.Turn.link_of E.Log.number_of E.Log.turns_of E.Node.turns_of E.Node.broken (E.serves rules) now report result.0
        (A.view door.old) (A.view door.new)) }
    ensures memory { HandsBack node door.old door.new result.0 }
{
    let Ok(room) = Room::<Locked<E, O>, A::L, A::S>::new(alloc) else {
        return (WatchEnd::Memory { node }, company);
    };
    let (book, front) = book.named::<O>();
    let Ok(desk) = Desk::new(alloc, front, LINKS_PER_WATCH as u32) else {
        return (WatchEnd::Memory { node }, company);
    };
    let host = Locked::<E, O>::new(alloc, node, rules, desk, company, book);
    let attended = attend_at(rt, &host, door, room);
    let (node, desk, company) = host.into_parts();
    E::recalls(&node);
    (ended(node, &desk, attended), company)
}

// Serves the links that a door gives.
fn attend_at<
    E: Served<Node: Watched<Turn: Send> + Send, Log: Send, Company: Send> + Send,
    O: Opened<E::Node> + Naming + Send,
    R: Threads + Wait + Sync,
    A: Door,
>(
    rt: &R,
    host: &Locked<E, O>,
    door: &mut A,
    room: Room<Locked<E, O>, A::L, A::S>,
) -> Attended<Receipt<O, E::Log>>
    ensures attends { Attends (ServedBy (E.serves host.now.rules) E.Log.number_of) result.stop result.logs (A.view door.old) (A.view door.new) }
    ensures few { length result.logs ≤ LINKS_PER_WATCH }
{
    attend(rt, host, door, room)
}

// The end of a watch whose links came to these receipts.
fn ended<N: Watched<Turn: Drop>, J: Naming, G: Logged<Turn = N::Turn> + Drop>(
    node: N,
    desk: &Desk<J, G, N::Turn>,
    attended: Attended<Receipt<J, G>>,
) -> WatchEnd<N>
    requires few { length attended.logs ≤ LINKS_PER_WATCH }
    requires keeps { IsKept N.Turn.link_of G.number_of G.turns_of desk.now (N.turns_of node) }
    ensures gives { IfReport result (λ now report. (now ≡ node) × (report.links ≡ length attended.logs) × (report.shut ≡ is_shut attended.stop)) }
    ensures ends { (differs : Option Differ) × EndsBy N.broken attended.stop differs result
        × ((logs : List G) → AreOf G.number_of logs attended.logs → Compares N.Turn.link_of G.number_of G.turns_of logs (N.turns_of node) differs) }
    ensures reported { IsReported result }
{
    let Attended { stop, logs } = attended;
    let links = logs.as_slice().len() as u32;
    let differ = differ_of(desk, logs.as_slice(), links);
    end_of(node, differ, stop, links)
}
