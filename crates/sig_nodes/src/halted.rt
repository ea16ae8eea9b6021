/// What became of a call while its node's disk stood still.
#[derive(Drop)]
pub enum Halted<A> {
    /// It made no call of the disk, and was answered.
    Answered(
        /// The answer.
        A,
    ),
    /// The node was loaded again from what its disk rested with.
    Crashed {
        /// Whether what the call was to keep stands in its store.
        kept: bool,
    },
}
