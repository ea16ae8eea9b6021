/// What differs, though it should be equal: where a watch's log and its node have other turns.
#[derive(Clone, Copy, PartialEq, Eq)]
pub enum Differ {
    /// The turns of this link at this place, counted from 1, in the link's log and in the node; one of both may be missing.
    Turn { link: u32, place: u64 },
}
