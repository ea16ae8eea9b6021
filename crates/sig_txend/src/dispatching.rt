ghost use Rattle.std.specs.Prelude.{◌≡◌, ◌≤◌, IfOk, map};
ghost use Rattle.sig_json.specs.declared.limits.TheConstants.{LAST_NUMBER};
ghost use Rattle.sig_txend.specs.Counting.{IsCounted, standing_in};

use crate::Task;
use sig_courier::Attempt;
use sig_http::Request;
use sig_json::{Memory, Text};
use sig_link::LinkLog;
use sig_round::Passing;
use sig_terms::Standing;
use sig_txnode::Turn;
use sig_txroutes::ToldStream;
use std::alloc::Global;
use std::sync::Wait;

/// A taker beside which it is known which push streams are to be tried. None of these calls is a turn.
pub trait Dispatching: Passing {
    /// What an errand does next, at this time in seconds since 1970.
    fn next<R: Wait>(&mut self, rt: &R, now: u64) -> Option<Task>;

    /// A listing came to these push streams; not to all, where it wasn't whole.
    fn listed<R: Wait>(&mut self, rt: &R, streams: &[Text], whole: bool);

    /// An errand tried a stream so, by these turns; it may owe more. Answers how many tokens it was brought, where it was late
    /// until now and is no more.
    fn tried<R: Wait>(
        &mut self,
        rt: &R,
        attempt: &Attempt,
        turns: &[Turn],
        more: bool,
    ) -> Option<u64>
        requires { attempt.now.at ≤ LAST_NUMBER };

    /// An errand tries a stream no more, of which it learned nothing; it may owe more.
    fn left<R: Wait>(&mut self, rt: &R, stream: &Text, more: bool);

    /// The operator asks for a round of this stream.
    fn ask<R: Wait>(&mut self, rt: &R, stream: &Text)
        ensures { Self.Taker.told self.new ≡ Self.Taker.told self.old };

    /// A stream may owe something.
    fn tell<R: Wait>(&mut self, rt: &R, stream: &Text)
        ensures { Self.Taker.told self.new ≡ Self.Taker.told self.old };

    /// Counts a request that is answered with this status.
    fn count<R: Wait>(&mut self, rt: &R, request: &Request, status: u16)
        ensures { Self.Taker.told self.new ≡ Self.Taker.told self.old };

    /// Counts a link that came.
    fn link_came<R: Wait>(&mut self, rt: &R);

    /// Counts how a link ended.
    fn link_ended<R: Wait>(&mut self, rt: &R, log: &LinkLog<Turn>);

    /// These streams with what came of the attempts to bring them their tokens. Out of memory is the only error.
    fn told_streams<R: Wait>(
        &mut self,
        rt: &R,
        alloc: Global,
        standings: &[Standing],
    ) -> Result<Vec<ToldStream>, Memory>
        ensures streams { IfOk result (λ streams. map standing_in streams.items ≡ standings.now) }
        ensures told { Self.Taker.told self.new ≡ Self.Taker.told self.old };

    /// What was counted, as metrics. Out of memory is the only error.
    fn counted<R: Wait>(&mut self, rt: &R, alloc: Global) -> Result<Text, Memory>
        ensures counted { IfOk result IsCounted }
        ensures told { Self.Taker.told self.new ≡ Self.Taker.told self.old };
}
