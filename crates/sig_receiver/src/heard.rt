use sig_json::Same;
use sig_set::{Code, Spot};

/// What a receiver answers to a token.
#[derive(Clone, Copy, PartialEq, Eq)]
pub enum Heard {
    /// It is valid and new: it stands in the journal from now on, and has had its effect.
    Accepted,
    /// It is valid, and its issuer and identifier stand in the journal already. Nothing changes.
    Seen,
    /// It isn't valid. Nothing changes.
    NotTaken {
        /// Why.
        code: Code,
        /// Where.
        spot: Spot,
    },
}

impl Same for Heard {
    fn same(&self, other: &Heard) -> bool {
        self == other
    }
}
