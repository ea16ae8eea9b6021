ghost use Rattle.std.specs.Prelude.{◌≡◌, ◌∷◌, ◌<◌, [], IfOk, OnErr, is_err, vec_capacity, vec_len};
ghost use Rattle.sig_json.specs.Answers.{Answers};
ghost use Rattle.sig_link.specs.Course.{Continues};
ghost use Rattle.sig_link.specs.Meaning.{Grows, Meaning};

use crate::course::Course;
use sig_http::{HttpRefusal, Request, Response};
use sig_json::Memory;
use sig_links::Side;
use std::alloc::Global;
use std::sync::Wait;

/// What an end, a transmitter or a receiver, is to the links that it serves.
///
/// Its `meaning` is the call of a request, the turn of a call, the responses to a turn, and what follows it. `told` is what a
/// taker tells of its turns, and `proper` holds of the calls that requests make.
pub trait End {
    /// What calls are asked of, one turn after another.
    type Taker;

    /// The rules by which it answers.
    type Rules;

    /// What a request asks.
    type Call: Drop;

    /// A call with its answer.
    type Turn: Drop;

    ghost Told: { Type 0 };

    ghost told: { Self.Taker → Told };

    ghost proper: { Self.Call → Type 0 };

    ghost meaning: { Meaning Self.Rules Self.Call Self.Turn Told };

    /// The call that a request makes, or why the routes refuse it.
    fn call_of(
        alloc: Global,
        request: &Request,
        rules: &Self::Rules,
    ) -> Result<Self::Call, HttpRefusal>
        ensures answers { Answers HttpRefusal.Memory result (meaning.asked request.now rules.now) }
        ensures proper { IfOk result proper };

    /// The turn of a call that a link of this number makes. It may wait for others that ask the taker. At `Memory` the taker
    /// has no turn more.
    fn turn<R: Wait, S: Side>(
        rt: &R,
        taker: &mut Self::Taker,
        side: &mut S,
        link: u32,
        call: Self::Call,
    ) -> Result<Self::Turn, Memory>
        requires { proper call }
        ensures turn { IfOk result (λ turn.
            meaning.Makes link call turn (S.view side.old) (S.view side.new)) }
        ensures told { IfOk result (λ turn.
            meaning.Grew (told taker.old) (told taker.new) (turn ∷ [])) }
        ensures memory { OnErr result (told taker.new ≡ told taker.old) }
        ensures tries { OnErr result (meaning.Tries (S.view side.old) (S.view side.new)) };

    /// The response to a turn; what was counted, which it may tell beside the turn's answer, it asks the taker. It leaves the
    /// link open.
    fn response<R: Wait>(
        alloc: Global,
        rt: &R,
        taker: &mut Self::Taker,
        rules: &Self::Rules,
        turn: &Self::Turn,
    ) -> Result<Response, Memory>
        ensures responds { IfOk result (λ response. meaning.Responds rules.now turn.now response) }
        ensures told { told taker.new ≡ told taker.old };

    /// Counts a request that is answered with this status, which is no turn.
    fn count<R: Wait>(rt: &R, taker: &mut Self::Taker, request: &Request, status: u16)
        ensures { told taker.new ≡ told taker.old };

    /// Keeps a turn last, for which there is room, once its response was written whole, and then does what follows it. It may
    /// wait as a turn may.
    fn follow<R: Wait, S: Side>(
        alloc: Global,
        rt: &R,
        taker: &mut Self::Taker,
        rules: &Self::Rules,
        side: &mut S,
        turn: Self::Turn,
        turns: &mut Vec<Self::Turn>,
    ) -> Result<(), Memory>
        requires { vec_len turns.old < vec_capacity turns.old }
        ensures { Continues meaning rules.now (Course.Turned turn) (is_err result)
            turns.old.items turns.new.items (told taker.old) (told taker.new)
            (S.view side.old) (S.view side.new) };

    ghost grows: { Grows meaning.Grew };
}
