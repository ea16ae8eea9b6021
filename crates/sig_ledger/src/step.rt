ghost use Rattle.std.specs.Prelude.{◌≡◌, None};

use crate::Prepared;
use sig_terms::Answer;

/// How a call is answered, and the fact that it makes.
#[derive(Drop)]
pub struct Step {
    /// The answer.
    pub answer: Answer,
    /// The fact, where there is one.
    pub change: Option<Prepared>,
}

impl Step {
    /// An answer without a fact.
    pub fn only(answer: Answer) -> Step
        ensures answer { result.answer ≡ answer }
        ensures change { result.change ≡ None }
    {
        Step {
            answer,
            change: None,
        }
    }
}
