//! How a call is answered, before room is held for the fact that it makes.

ghost use Rattle.std.specs.Prelude.{◌≡◌, IfOk, IfSome, None};
ghost use Rattle.sig_json.specs.Answers.{Answers, result_map};
ghost use Rattle.sig_terms.specs.declared.answer.Answer.TheVariants as answer;
ghost use Rattle.sig_calls.specs.Told.{outcome, with_change};
ghost use Rattle.sig_ledger.specs.Books.{sum_in};
ghost use Rattle.sig_ledger.specs.Room.{HasRoom};
ghost use Rattle.sig_ledger.specs.Steps.{reply_in};

use sig_ledger::{Ledger, Step};
use sig_terms::{Answer, Fact, PrepareFault};

/// An answer, and the fact that the call makes, where there is one.
#[derive(Drop)]
pub(crate) struct Turn {
    /// The answer.
    pub(crate) answer: Answer,
    /// The fact.
    pub(crate) change: Option<Fact>,
}

impl Turn {
    /// An answer that changes nothing.
    pub(crate) fn only(answer: Answer) -> Turn
        ensures { result ≡ record { answer = answer; change = None } }
    {
        Turn {
            answer,
            change: None,
        }
    }

    /// Where the client has no such stream.
    pub(crate) fn not_found() -> Turn
        ensures { result ≡ record { answer = answer.NotFound; change = None } }
    {
        Turn::only(Answer::NotFound)
    }
}

/// The step of a turn, with room for its fact.
pub(crate) fn finish(ledger: &mut Ledger, turn: Turn) -> Result<Step, PrepareFault>
    ensures keeps { ledger.new.books ≡ ledger.old.books }
    ensures answers { Answers PrepareFault.Memory (result_map reply_in result) (outcome (with_change turn.answer turn.change)) }
    ensures room { IfOk result (λ step. IfSome step.change (HasRoom (sum_in ledger.new.books) ledger.new.room)) }
{
    let step = ledger.step(turn.answer, turn.change)?;
    Ok(step)
}
