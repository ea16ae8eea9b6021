//! What is kept of a place that was put.

/// A key, and a place that was put under it.
#[derive(Clone, Copy, PartialEq, Eq)]
pub struct Entry {
    /// The key.
    pub key: u64,
    /// The place.
    pub place: usize,
}

/// How an entry stands among those of its key.
#[derive(Clone, Copy, PartialEq, Eq)]
pub(crate) struct Link {
    /// The number of the one before it, counted from 1; 0 where it is the first.
    pub previous: usize,
    /// How many of its key there are up to it, itself among them.
    pub count: usize,
}
