/// What an answered request changed.
#[derive(Clone, Copy, Debug, PartialEq, Eq)]
pub enum Change {
    /// A stream was created.
    Created,
    /// What is wanted of a stream was replaced.
    Replaced,
    /// A stream was deleted.
    Deleted,
    /// A stream was given another status.
    StatusSet,
}

/// How many requests changed something, by what they changed. A count stands at 2^64 - 1.
#[derive(Clone, Copy, Debug, PartialEq, Eq)]
pub struct Counts {
    /// How many streams were created.
    pub created: u64,
    /// How many streams were replaced.
    pub replaced: u64,
    /// How many streams were deleted.
    pub deleted: u64,
    /// How many statuses were set.
    pub status: u64,
}
