ghost use Rattle.std.specs.Prelude.{◌≡◌, IfOk, Option, Some};
ghost use Rattle.sig_rxnode.specs.Answers.{FitsPage, IsAnswerTo};
ghost use Rattle.sig_rxnode.specs.Node.{base_of, files_told};
ghost use Rattle.sig_rxnode.specs.Told.{RxTold, TakesTurn};

use crate::{RxAnswer, RxCall, RxFault, RxNode};
use sig_outside::Disk;
use std::sync::Wait;

/// What answers the calls of a receiver's link, one turn after another. It keeps its allocator.
///
/// Its meaning `told` are the turns that it kept, with what was kept of tokens before them, the settings by which it answers
/// and whether the files of its store are told, where it tells them.
pub trait RxTaker {
    ghost told: { Self → Option RxTold };

    /// Answers a call that a link makes. It may wait for others that ask.
    ///
    /// Where the turns are told, they are longer by just this one, unless memory ran out: then they are as before. What else
    /// is told stays. A page has at most 256 rows, told or not.
    fn turn<R: Wait>(&mut self, rt: &R, link: u32, call: &RxCall) -> Result<RxAnswer, RxFault>
        ensures kept { TakesTurn (told self.old) (told self.new) link call.now result }
        ensures page { IfOk result FitsPage }

        // What it answers is what the table gives to the call over something that is kept, told or not.
        ensures row { IfOk result (λ answer. IsAnswerTo call.now answer) };
}

impl<D: Disk> RxTaker for RxNode<D> {
    ghost told = { λ n. Some (record { turns = n.turns; base = base_of n; rules = n.rules; files = files_told D.told n }) };

    fn turn<R: Wait>(&mut self, _rt: &R, link: u32, call: &RxCall) -> Result<RxAnswer, RxFault> {
        self.take(link, call)
    }
}
