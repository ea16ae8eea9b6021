/// What a reader of lines may still answer. The last two stay.
#[derive(Clone, Copy, PartialEq, Eq)]
pub enum Mode {
    /// It reads on.
    Open,
    /// Its source failed: it answers `Failed`.
    Failing,
    /// It was refused memory: it answers `Memory`.
    Spent,
}
