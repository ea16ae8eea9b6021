ghost use Rattle.std.specs.Prelude.{◌≡◌, None};

use sig_terms::{Answer, Fact};

/// How a call is answered, and the fact that it makes, before anything is made ready for the fact.
#[derive(Drop)]
pub(crate) struct Reply {
    /// The answer.
    pub answer: Answer,
    /// The fact, where there is one.
    pub change: Option<Fact>,
}

impl Reply {
    /// An answer without a fact.
    pub(crate) fn only(answer: Answer) -> Reply
        ensures { result ≡ record { answer = answer; change = None } }
    {
        Reply {
            answer,
            change: None,
        }
    }
}
