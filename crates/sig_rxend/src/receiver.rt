use crate::noting::serve_link;
use crate::{Counting, Locked, RxEnd};
use sig_book::Naming;
use sig_counts::Counts;
use sig_json::{Items, Memory};
use sig_link::LinkLog;
use sig_links::{Link, Side};
use sig_outside::Disk;
use sig_rxnode::{RxNode, RxRules, RxTurn};
use sig_serving::LinkEnd;
use sig_watch::{Lasting, Opened, Served, Shared};
use std::alloc::Global;
use std::marker::PhantomData;
use std::sync::{Mutex, Wait};

/// A receiver whose store stands on disks of this kind, as a watch serves it.
pub struct Receiver<D: Disk> {
    disks: PhantomData<D>,
}

impl<D: Disk> Lasting for Receiver<D> {
    ghost use Rattle.std.proofs.Props.{props};
    ghost use Rattle.sig_rxend.specs.Ends.{Follows};

    type Node = RxNode<D>;

    type Log = LinkLog<RxTurn>;

    type Company = Counts;

    ghost follows = { Follows D.told };

    ghost follows_once = { λ before now. Prim.hlevel props };
}

impl<D: Disk> Served for Receiver<D> {
    ghost use Rattle.sig_rxend.specs.Ends.{IsOneHistory};
    ghost use Rattle.sig_rxend.specs.Serving.{ServesOne};

    type Rules = RxRules;

    ghost rules_of = { λ n. n.rules };

    ghost is_history = { IsOneHistory D.told D.seen D.may_leave };

    ghost serves = { ServesOne };

    fn rules(alloc: Global, node: &RxNode<D>) -> Result<RxRules, Memory> {
        node.rules().copy(alloc)
    }

    fn open_watch(node: &mut RxNode<D>) {
        // That the base is the state rests on what holds of every node.
        let _ = node.broken_at();
        node.open_watch();
    }

    fn recalls(node: &RxNode<D>) {
        let _ = node.broken_at();
    }

    // A receiver does nothing by itself; it hears what time it is.
    fn wants_errand(company: &mut Counts, now: u64) -> bool {
        company.tick(now);
        false
    }

    fn accept_lacked(company: &mut Counts) {
        company.door_failed();
    }

    fn errand<O: Opened<RxNode<D>> + Naming, R: Wait, S: Side>(
        alloc: Global,
        _rt: &R,
        _node: &Mutex<Shared<Receiver<D>, O>>,
        _rules: &RxRules,
        number: u32,
        _side: &mut S,
    ) -> LinkLog<RxTurn> {
        LinkLog {
            link: number,
            turns: Items::of(Vec::new(alloc)),
            end: LinkEnd::End,
        }
    }

    fn serve<O: Opened<RxNode<D>> + Naming, R: Wait, L: Link, S: Side>(
        alloc: Global,
        rt: &R,
        node: &Mutex<Shared<Receiver<D>, O>>,
        rules: &RxRules,
        number: u32,
        link: &mut L,
        side: &mut S,
    ) -> LinkLog<RxTurn> {
        let mut taker = Locked { node };
        taker.link_came(rt);
        let log = serve_link::<RxEnd<Locked<Receiver<D>, O>>, R, L, S>(
            alloc, rt, &mut taker, rules, number, link, side,
        );
        taker.link_ended(rt, &log);
        log
    }
}
