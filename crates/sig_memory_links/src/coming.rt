use crate::{MemLink, MemSide};

/// A link that comes to a door, and the side beside it.
#[derive(Drop)]
pub struct Coming {
    pub link: MemLink,
    pub side: MemSide,
}
