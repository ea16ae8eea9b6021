//! The courier's schedule: when each push stream is due, by the attempts to bring it its tokens (RFC 8935, section 2.4).
//!
//! It stands on `sig_json` for texts, and on `indexmap` for one look-up a stream. A late attempt is one after which a token is
//! still owed.
//!
//! ```text
//!     attempt, attempt, .. --note--> how late each stream is --due_at--> when the next attempt may come
//! ```
//!
//! Promised: what is kept is what the log of all attempts says, however long that is: a stream is due at any time where it has
//! no attempt or its last one was good; else 30 seconds after the last one, and twice as long after each further late one in a
//! row, an hour at most. Where room was made for a stream, its attempts are noted without memory. Left out: who makes the
//! attempts.
#![tactic(auto)]

mod attempt;
mod late;
mod schedule;
#[cfg(test)]
mod tests;
mod threads;

pub use attempt::Attempt;
pub use late::Late;
pub use schedule::Schedule;
