//! Which push streams are tried next, and which are being tried (RFC 8935, section 2.4).
//!
//! It stands on `sig_courier` for the schedule of attempts, and on `indexmap` for one look-up a stream. Whoever tries a stream
//! is an errand of its own, or a round of pushes after a publication.
//!
//! ```text
//!     tell --> streams that wait, by when they are due --claim--> an errand tries it --note, release--> it waits again, where
//!              it may owe more
//! ```
//!
//! Promised: a stream is tried by one alone at a time; it is claimed only where it was told of and is due by the log of
//! attempts; an attempt that is noted stands last in that log; and what was told waits, or is looked at again once it is
//! released, or a listing of all streams is wanted, which needs no memory. Left out: who tries the streams, and what they owe.
#![tactic(auto)]

mod dispatch;
mod place;
#[cfg(test)]
mod tests;
mod threads;

pub use dispatch::Dispatch;
pub use place::ERRANDS_AT_ONCE;
