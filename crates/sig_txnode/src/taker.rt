ghost use Rattle.std.specs.Prelude.{◌≡◌, IfOk, Option, Some};
ghost use Rattle.sig_calls.specs.Proper.{IsProperCall};
ghost use Rattle.sig_txnode.specs.Answering.{IsAnswerTo, time_used};
ghost use Rattle.sig_txnode.specs.Node.{files_told};
ghost use Rattle.sig_txnode.specs.Told.{KeepsTurn, TakerTold};

use crate::TxNode;
use sig_journal::NodeFault;
use sig_outside::Disk;
use sig_terms::{Answer, Call};
use std::sync::Wait;

/// What answers the calls of a link, one turn after another. It keeps its allocator.
///
/// Its meaning `told` are the turns that it kept, with the state before them, the rules by which it answers and whether the
/// files of its store are told, where it tells them.
pub trait Taker {
    ghost told: { Self → Option TakerTold };

    /// Answers a call that a link asks at a time. It may wait for others that ask.
    ///
    /// Where the turns are told, they are longer by just this one, unless memory ran out: then they are as before. What else
    /// is told stays.
    fn turn<R: Wait>(
        &mut self,
        rt: &R,
        link: u32,
        call: &Call,
        now: u64,
    ) -> Result<Answer, NodeFault>
        requires { IsProperCall call.now }
        ensures kept { KeepsTurn (told self.old) (told self.new) link call.now (time_used now) result }

        // What it answers is what the table gives to the call at some state, told or not.
        ensures row { IfOk result (λ answer. IsAnswerTo call.now (time_used now) answer) };
}

impl<D: Disk> Taker for TxNode<D> {
    ghost told = { λ n. Some (record { turns = n.turns; base = n.base; rules = n.rules; files = files_told D.told n }) };

    fn turn<R: Wait>(
        &mut self,
        _rt: &R,
        link: u32,
        call: &Call,
        now: u64,
    ) -> Result<Answer, NodeFault> {
        self.take(link, call, now)
    }
}
