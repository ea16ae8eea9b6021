//! The log of a link beside the turns that its node kept.
//!
//! It stands on `sig_json`, for the comparison of turns.
//!
//! ```text
//!     log of a link      the node's turns, of several links as they came
//!              \         /
//!               place_of: the first turn of this link that isn't the same on both sides, if any
//! ```
//!
//! Promised: no place is told exactly where the log has the node's turns of its link, in order; and at a place that is told
//! they differ. Links that are served at the same time share a node under a lock, of which a contract can't say what each of
//! them did; so a watch compares. Here stand what it means that all logs of a watch have the node's turns, and the traits of
//! logs, of turns and of the nodes that keep them.
#![tactic(auto)]

mod comparing;
mod difference;
mod logged;
mod threads;
mod watched;

pub use comparing::place_of;
pub use difference::Differ;
pub use logged::{LinkTurn, Logged};
pub use watched::Watched;
