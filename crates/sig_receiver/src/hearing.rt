use crate::Heard;
use sig_inbox::Pair;
use sig_sessions::Change;

/// A token that is valid and new, ready to be taken in without memory. `Receiver::commit` alone takes it.
#[derive(Drop)]
pub struct Ready {
    pub(crate) pair: Pair,
    pub(crate) change: Change,
}

/// What a receiver answers to a token, and what has to be taken in where it accepts it.
#[derive(Drop)]
pub struct Hearing {
    /// The answer.
    pub heard: Heard,
    /// What is to be taken in, exactly where the answer is `Accepted`.
    pub change: Option<Ready>,
}
