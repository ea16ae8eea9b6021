//! What is kept of a stream that was told of.

/// Errands that try streams at the same time at most.
pub const ERRANDS_AT_ONCE: u64 = 8;

/// Where a stream waits: those that are due sooner come first, and of those that are due at one time the one that was told of
/// first.
#[derive(Clone, Copy, PartialEq, Eq, PartialOrd, Ord)]
pub struct Place {
    /// When it is due, in seconds since 1970; 0 where it isn't late.
    pub due: u64,
    /// How many were told before.
    pub turn: u64,
}

/// Who tries a stream.
#[derive(Clone, Copy)]
pub enum Trier {
    /// It isn't being tried.
    Nobody,
    /// An errand.
    Errand,
    /// A round of pushes.
    Round,
}

/// What is kept of a stream.
#[derive(Clone, Copy)]
pub struct Mark {
    /// The place at which it was last put.
    pub place: Place,
    /// Who tries it.
    pub by: Trier,
    /// Whether it is looked at again once it is released.
    pub again: bool,
}

impl Mark {
    /// A stream of which nothing is known.
    pub const NEW: Mark = Mark {
        place: Place { due: 0, turn: 0 },
        by: Trier::Nobody,
        again: false,
    };
}
