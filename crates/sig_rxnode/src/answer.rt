ghost use Rattle.std.specs.Prelude.{◌≡◌, IfOk};
ghost use Rattle.sig_rxnode.specs.Answers.{heard_answer};

use sig_json::{Copied, Items, Memory, Same, copy_items};
use sig_receiver::Heard;
use sig_sessions::{Row, Verdict};
use sig_set::{Code, Spot};
use std::alloc::Global;

/// What the receiver answers to a call.
#[derive(Drop)]
pub enum RxAnswer {
    /// The token is valid and new: it stands in the journal from now on, and has had its effect.
    Accepted,
    /// The token is valid, and its issuer and identifier stand in the journal already. Nothing changes.
    Seen,
    /// The token isn't valid. Nothing changes.
    Refused {
        /// Why.
        code: Code,
        /// Where.
        spot: Spot,
    },
    /// What the session table says of a subject.
    Verdict(Verdict),
    /// The rows of a page, at most 256.
    Rows(Items<Row>),
    /// The figures of the whole receiver.
    Figures {
        /// How many tokens it took, each once.
        tokens: u64,
        /// How many rows the session table has.
        rows: u64,
    },
}

impl RxAnswer {
    /// An equal answer. Out of memory is its only error.
    pub fn copy(&self, alloc: Global) -> Result<RxAnswer, Memory>
        ensures { IfOk result (λ a. a ≡ self.now) }
    {
        match self {
            RxAnswer::Accepted => Ok(RxAnswer::Accepted),
            RxAnswer::Seen => Ok(RxAnswer::Seen),
            RxAnswer::Refused { code, spot } => Ok(RxAnswer::Refused {
                code: *code,
                spot: *spot,
            }),
            RxAnswer::Verdict(verdict) => Ok(RxAnswer::Verdict(*verdict)),
            RxAnswer::Rows(rows) => Ok(RxAnswer::Rows(copy_items(alloc, rows)?)),
            RxAnswer::Figures { tokens, rows } => Ok(RxAnswer::Figures {
                tokens: *tokens,
                rows: *rows,
            }),
        }
    }

    /// The answer to a token.
    pub(crate) fn of(heard: Heard) -> RxAnswer
        ensures { result ≡ heard_answer heard }
    {
        match heard {
            Heard::Accepted => RxAnswer::Accepted,
            Heard::Seen => RxAnswer::Seen,
            Heard::NotTaken { code, spot } => RxAnswer::Refused { code, spot },
        }
    }
}

impl Copied for RxAnswer {
    fn copied(&self, alloc: Global) -> Result<RxAnswer, Memory> {
        self.copy(alloc)
    }
}

impl Same for RxAnswer {
    fn same(&self, other: &RxAnswer) -> bool {
        match self {
            RxAnswer::Accepted => matches!(other, RxAnswer::Accepted),
            RxAnswer::Seen => matches!(other, RxAnswer::Seen),
            RxAnswer::Refused { code, spot } => match other {
                RxAnswer::Refused {
                    code: theirs,
                    spot: place,
                } => *code == *theirs && *spot == *place,
                _ => false,
            },
            RxAnswer::Verdict(verdict) => match other {
                RxAnswer::Verdict(theirs) => verdict.same(theirs),
                _ => false,
            },
            RxAnswer::Rows(rows) => match other {
                RxAnswer::Rows(theirs) => rows.same(theirs),
                _ => false,
            },
            RxAnswer::Figures { tokens, rows } => match other {
                RxAnswer::Figures {
                    tokens: taken,
                    rows: told,
                } => *tokens == *taken && *rows == *told,
                _ => false,
            },
        }
    }
}
