/// What a door answers.
#[derive(Drop)]
pub enum Accepted<L, S> {
    /// A link came; the side stands beside it.
    Link { link: L, side: S },
    /// No further link will come.
    Shut,
    /// No link came in the time that an accept waits; or the system lacks something for a while that an accept needs.
    Waited { lacking: bool },
}
