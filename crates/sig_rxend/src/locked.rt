ghost use Rattle.std.specs.Prelude.{◌≡◌, IfOk};
ghost use Rattle.sig_rxnode.specs.Answers.{FitsPage, IsAnswerTo};
ghost use Rattle.sig_rxend.specs.Counting.{IsCountedAt};

use crate::counting::{count_link, count_request, counted_text};
use crate::{Counting, Receiver};
use sig_book::Naming;
use sig_http::Request;
use sig_json::{Memory, Text};
use sig_link::LinkLog;
use sig_outside::Disk;
use sig_rxnode::{RxAnswer, RxCall, RxFault, RxNode, RxTaken, RxTaker, RxTurn};
use sig_watch::{Lasting, Opened, Shared};
use std::alloc::Global;
use std::sync::{Mutex, Wait};

/// What asks a node under its lock. It tells nothing, since a lock hides what it holds.
#[derive(Drop)]
pub struct Locked<'a, E: Lasting, O: Opened<E::Node> + Naming> {
    /// The node.
    pub node: &'a Mutex<Shared<E, O>>,
}

impl<'a, D: Disk, O: Opened<RxNode<D>> + Naming> RxTaker for Locked<'a, Receiver<D>, O> {
    ghost use Rattle.std.specs.Prelude.{None};

    ghost told = { λ l. None };

    fn turn<R: Wait>(&mut self, rt: &R, link: u32, call: &RxCall) -> Result<RxAnswer, RxFault> {
        let mut shared = self.node.lock(rt);
        turn(&mut *shared, link, call)
    }
}

impl<'a, D: Disk, O: Opened<RxNode<D>> + Naming> Counting for Locked<'a, Receiver<D>, O> {
    fn count<R: Wait>(&mut self, rt: &R, request: &Request, status: u16) {
        let mut shared = self.node.lock(rt);
        count_request(&mut (*shared).company, request, status);
    }

    fn link_came<R: Wait>(&mut self, rt: &R) {
        let mut shared = self.node.lock(rt);
        (*shared).company.link_came();
    }

    fn link_ended<R: Wait>(&mut self, rt: &R, log: &LinkLog<RxTurn>) {
        let mut shared = self.node.lock(rt);
        count_link(&mut (*shared).company, log);
    }

    fn counted<R: Wait>(&mut self, rt: &R, alloc: Global) -> Result<Text, Memory> {
        let shared = self.node.lock(rt);
        counted(&*shared, alloc)
    }
}

// What was counted, as metrics, beside the bytes of the node's journal.
fn counted<D: Disk, O: Opened<RxNode<D>> + Naming>(
    shared: &Shared<Receiver<D>, O>,
    alloc: Global,
) -> Result<Text, Memory>
    ensures { IfOk result (IsCountedAt shared.now.node.kept.store.journal.end) }
{
    counted_text(alloc, &shared.company, shared.node.bytes())
}

// Answers a call of a link, as the node's next turn, which the desk has until the link ends.
fn turn<D: Disk, O: Opened<RxNode<D>> + Naming>(
    shared: &mut Shared<Receiver<D>, O>,
    link: u32,
    call: &RxCall,
) -> Result<RxAnswer, RxFault>
    ensures page { IfOk result FitsPage }
    ensures row { IfOk result (λ answer. IsAnswerTo call.now answer) }
{
    if shared.desk.reserve().is_err() {
        return Err(RxFault::Memory);
    }
    let RxTaken { result, turn } = shared.node.take_kept(link, call);
    shared.desk.keep(turn);
    result
}
