/// What a fetch that ended well did.
#[derive(Clone, Copy, Debug, PartialEq, Eq)]
pub struct Fetched {
    /// How many rounds it made.
    pub rounds: u64,
    /// How many tokens were accepted.
    pub accepted: u64,
    /// How many had been seen.
    pub seen: u64,
    /// How many were refused.
    pub refused: u64,
}
