use crate::errands::do_errand;
use crate::noting::serve_link;
use crate::{Company, Dispatching, Locked, TxEnd};
use sig_book::Naming;
use sig_json::{Items, Memory};
use sig_link::LinkLog;
use sig_links::{Link, Side};
use sig_outside::Disk;
use sig_serving::LinkEnd;
use sig_terms::Rules;
use sig_txnode::{Turn, TxNode};
use sig_watch::{Lasting, Opened, Served, Shared};
use std::alloc::Global;
use std::marker::PhantomData;
use std::sync::{Mutex, Wait};

/// A transmitter whose store stands on disks of this kind, as a watch serves it.
pub struct Transmitter<D: Disk> {
    disks: PhantomData<D>,
}

impl<D: Disk> Lasting for Transmitter<D> {
    ghost use Rattle.std.proofs.Props.{props};
    ghost use Rattle.sig_txend.specs.Ends.{Follows};

    type Node = TxNode<D>;

    type Log = LinkLog<Turn>;

    type Company = Company;

    ghost follows = { Follows D.told };

    ghost follows_once = { λ before now. Prim.hlevel props };
}

impl<D: Disk> Served for Transmitter<D> {
    ghost use Rattle.sig_txend.specs.Ends.{IsOneHistory};
    ghost use Rattle.sig_txend.specs.Serving.{ServesOne};

    type Rules = Rules;

    ghost rules_of = { λ n. n.rules };

    ghost is_history = { IsOneHistory D.told D.seen D.may_leave };

    ghost serves = { ServesOne };

    fn rules(alloc: Global, node: &TxNode<D>) -> Result<Rules, Memory> {
        node.rules().copy(alloc)
    }

    fn open_watch(node: &mut TxNode<D>) {
        node.open_watch();
    }

    fn recalls(node: &TxNode<D>) {
        let _ = node.broken_at();
    }

    fn wants_errand(company: &mut Company, now: u64) -> bool {
        company.begins_errand(now)
    }

    fn accept_lacked(company: &mut Company) {
        company.counts().door_failed();
    }

    fn errand<O: Opened<TxNode<D>> + Naming, R: Wait, S: Side>(
        alloc: Global,
        rt: &R,
        node: &Mutex<Shared<Transmitter<D>, O>>,
        rules: &Rules,
        number: u32,
        side: &mut S,
    ) -> LinkLog<Turn> {
        let mut taker = Locked { node };
        LinkLog {
            link: number,
            turns: Items::of(do_errand(alloc, rt, &mut taker, rules, number, side)),
            end: LinkEnd::End,
        }
    }

    fn serve<O: Opened<TxNode<D>> + Naming, R: Wait, L: Link, S: Side>(
        alloc: Global,
        rt: &R,
        node: &Mutex<Shared<Transmitter<D>, O>>,
        rules: &Rules,
        number: u32,
        link: &mut L,
        side: &mut S,
    ) -> LinkLog<Turn> {
        let mut taker = Locked { node };
        taker.link_came(rt);
        let log = serve_link::<TxEnd<Locked<Transmitter<D>, O>>, R, L, S>(
            alloc, rt, &mut taker, rules, number, link, side,
        );
        taker.link_ended(rt, &log);
        log
    }
}
