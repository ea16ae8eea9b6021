//! What a receiver counts, and tells with its figures.

ghost use Rattle.std.specs.Prelude.{◌≡◌, IfOk};
ghost use Rattle.sig_rxend.specs.Counting as spec;
ghost use Rattle.sig_rxend.specs.Counting.{IsCounted};

use sig_counts::{Counts, put_value};
use sig_http::Request;
use sig_json::{Memory, Text};
use sig_link::LinkLog;
use sig_notes::end_word;
use sig_outside::Disk;
use sig_rxnode::{RxAnswer, RxCall, RxNode, RxTaker, RxTurn};
use sig_rxroutes::route_at;
use std::alloc::Global;
use std::sync::Wait;

/// A taker beside which it is known what was counted. None of these calls is a turn.
pub trait Counting: RxTaker {
    /// Counts a request that is answered with this status.
    fn count<R: Wait>(&mut self, rt: &R, request: &Request, status: u16)
        ensures { Self.RxTaker.told self.new ≡ Self.RxTaker.told self.old };

    /// Counts a link that came.
    fn link_came<R: Wait>(&mut self, rt: &R);

    /// Counts how a link ended, and what its pushes came to.
    fn link_ended<R: Wait>(&mut self, rt: &R, log: &LinkLog<RxTurn>);

    /// What was counted, as metrics. Out of memory is the only error.
    fn counted<R: Wait>(&mut self, rt: &R, alloc: Global) -> Result<Text, Memory>
        ensures counted { IfOk result IsCounted }
        ensures told { Self.RxTaker.told self.new ≡ Self.RxTaker.told self.old };
}

/// A node by itself counts nothing.
impl<D: Disk> Counting for RxNode<D> {
    fn count<R: Wait>(&mut self, _rt: &R, _request: &Request, _status: u16) {}

    fn link_came<R: Wait>(&mut self, _rt: &R) {}

    fn link_ended<R: Wait>(&mut self, _rt: &R, _log: &LinkLog<RxTurn>) {}

    fn counted<R: Wait>(&mut self, _rt: &R, alloc: Global) -> Result<Text, Memory> {
        counted_text(alloc, &Counts::new(alloc), self.bytes())
    }
}

// Counts a request that was answered with this status: by the route that it is for, where there is one.
pub fn count_request(counts: &mut Counts, request: &Request, status: u16) {
    match route_at(request.path.as_str()) {
        Some(route) if request.method.as_str() == route.method() => {
            counts.request(route.method(), route.path(), status);
        }
        _ => counts.request("other", "other", status),
    }
}

// Counts how a link ended, and what its pushes came to.
pub fn count_link(counts: &mut Counts, log: &LinkLog<RxTurn>) {
    counts.link_ended(end_word(log.end));
    for turn in log.turns.as_slice() {
        if let (RxCall::Token { .. }, Ok(answer)) = (&turn.call, &turn.result) {
            count_answer(counts, answer);
        }
    }
}

fn count_answer(counts: &mut Counts, answer: &RxAnswer) {
    match answer {
        RxAnswer::Accepted => counts.pushed("accepted"),
        RxAnswer::Seen => counts.pushed("seen"),
        RxAnswer::Refused { code, .. } => {
            counts.pushed("refused");
            counts.token_reported(code.as_str());
        }
        RxAnswer::Verdict(_) | RxAnswer::Rows(_) | RxAnswer::Figures { .. } => {}
    }
}

// What was counted, as metrics, beside this many bytes of the store's file in force.
pub fn counted_text(alloc: Global, counts: &Counts, bytes: u64) -> Result<Text, Memory>
    ensures { IfOk result (λ text.
        text ≡ spec.counted_text (record { figures = counts.now; bytes = bytes })) }
{
    let mut text = String::new(alloc);
    counts.put(&mut text)?;
    put_value(&mut text, bytes_front(), bytes)?;
    Ok(Text::from_string(text))
}

// What opens the metric of the store's bytes. No other function reads this text.
#[tactic(auto, unfolding(crate::specs::Counting::bytes_front))]
fn bytes_front() -> &'static str
    ensures { result.now ≡ spec.bytes_front }
{
    "# HELP signals_store_bytes Bytes of the store's file in force.\n# TYPE signals_store_bytes gauge\nsignals_store_bytes "
}
