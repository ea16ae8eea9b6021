ghost use Rattle.std.specs.Prelude.{◌≡◌, IfOk};
ghost use Rattle.sig_calls.specs.Proper.{IsProperCall};
ghost use Rattle.sig_txnode.specs.Answering.{IsAnswerTo, time_used};
ghost use Rattle.sig_txend.specs.Counting.{IsCountedAt};

use crate::counting::{count_link, count_request};
use crate::{Dispatching, Task, Transmitter};
use sig_book::Naming;
use sig_courier::Attempt;
use sig_http::Request;
use sig_json::{Memory, Text};
use sig_link::LinkLog;
use sig_outside::Disk;
use sig_round::Passing;
use sig_terms::{Answer, Call, Standing};
use sig_txnode::{Taken, Taker, Turn, TxFault, TxNode};
use sig_txroutes::ToldStream;
use sig_watch::{Lasting, Opened, Shared};
use std::alloc::Global;
use std::sync::{Mutex, Wait};

/// What asks a node under its lock. It tells nothing, since a lock hides what it holds.
#[derive(Drop)]
pub struct Locked<'a, E: Lasting, O: Opened<E::Node> + Naming> {
    /// The node.
    pub node: &'a Mutex<Shared<E, O>>,
}

impl<'a, D: Disk, O: Opened<TxNode<D>> + Naming> Taker for Locked<'a, Transmitter<D>, O> {
    ghost use Rattle.std.specs.Prelude.{None};

    ghost told = { λ l. None };

    fn turn<R: Wait>(
        &mut self,
        rt: &R,
        link: u32,
        call: &Call,
        now: u64,
    ) -> Result<Answer, TxFault> {
        let mut shared = self.node.lock(rt);
        turn(&mut *shared, link, call, now)
    }
}

// What others try, a lock hides.
impl<'a, D: Disk, O: Opened<TxNode<D>> + Naming> Passing for Locked<'a, Transmitter<D>, O> {
    ghost passes = { λ stream. Unit {0} };

    fn begins<R: Wait>(&mut self, rt: &R, stream: &Text) -> bool {
        let mut shared = self.node.lock(rt);
        (*shared).company.begins_round(stream)
    }

    fn ended<R: Wait>(&mut self, rt: &R, stream: &Text, turns: &[Turn]) -> Option<u64> {
        let mut shared = self.node.lock(rt);
        (*shared).company.ended_round(stream, turns)
    }
}

impl<'a, D: Disk, O: Opened<TxNode<D>> + Naming> Dispatching for Locked<'a, Transmitter<D>, O> {
    fn next<R: Wait>(&mut self, rt: &R, now: u64) -> Option<Task> {
        let mut shared = self.node.lock(rt);
        (*shared).company.next(now)
    }

    fn listed<R: Wait>(&mut self, rt: &R, streams: &[Text], whole: bool) {
        let mut shared = self.node.lock(rt);
        (*shared).company.listed(streams, whole);
    }

    fn tried<R: Wait>(
        &mut self,
        rt: &R,
        attempt: &Attempt,
        turns: &[Turn],
        more: bool,
    ) -> Option<u64> {
        let mut shared = self.node.lock(rt);
        (*shared).company.tried(attempt, turns, more)
    }

    fn left<R: Wait>(&mut self, rt: &R, stream: &Text, more: bool) {
        let mut shared = self.node.lock(rt);
        (*shared).company.release(stream, more);
    }

    fn ask<R: Wait>(&mut self, rt: &R, stream: &Text) {
        let mut shared = self.node.lock(rt);
        (*shared).company.ask(stream);
    }

    fn tell<R: Wait>(&mut self, rt: &R, stream: &Text) {
        let mut shared = self.node.lock(rt);
        (*shared).company.tell(stream);
    }

    fn count<R: Wait>(&mut self, rt: &R, request: &Request, status: u16) {
        let mut shared = self.node.lock(rt);
        count_request((*shared).company.counts(), request, status);
    }

    fn link_came<R: Wait>(&mut self, rt: &R) {
        let mut shared = self.node.lock(rt);
        (*shared).company.counts().link_came();
    }

    fn link_ended<R: Wait>(&mut self, rt: &R, log: &LinkLog<Turn>) {
        let mut shared = self.node.lock(rt);
        count_link((*shared).company.counts(), log);
    }

    fn told_streams<R: Wait>(
        &mut self,
        rt: &R,
        alloc: Global,
        standings: &[Standing],
    ) -> Result<Vec<ToldStream>, Memory> {
        let shared = self.node.lock(rt);
        (*shared).company.told_streams(alloc, standings)
    }

    fn counted<R: Wait>(&mut self, rt: &R, alloc: Global) -> Result<Text, Memory> {
        let shared = self.node.lock(rt);
        counted(&*shared, alloc)
    }
}

// What was counted, as metrics, beside the records and bytes of the node's journal.
fn counted<D: Disk, O: Opened<TxNode<D>> + Naming>(
    shared: &Shared<Transmitter<D>, O>,
    alloc: Global,
) -> Result<Text, Memory>
    ensures { IfOk result
        (IsCountedAt shared.now.node.store.journal.records shared.now.node.store.journal.end) }
{
    let records = shared.node.records();
    let bytes = shared.node.bytes();
    shared.company.counted(alloc, records, bytes)
}

// Answers a call of a link, as the node's next turn, which the desk has until the link ends.
fn turn<D: Disk, O: Opened<TxNode<D>> + Naming>(
    shared: &mut Shared<Transmitter<D>, O>,
    link: u32,
    call: &Call,
    now: u64,
) -> Result<Answer, TxFault>
    requires { IsProperCall call.now }
    ensures { IfOk result (λ answer. IsAnswerTo call.now (time_used now) answer) }
{
    if shared.desk.reserve().is_err() {
        return Err(TxFault::Memory);
    }
    let Taken { result, turn } = shared.node.take_kept(link, call, now);
    shared.desk.keep(turn);
    result
}
