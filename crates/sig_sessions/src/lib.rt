//! The session table: what an application may conclude from the events of the tokens that it took (defined here).
//!
//! It stands on `sig_event` for claims, on `sig_subject` for whom they are about, and on `sig_places` to find rows. A row is
//! a subject and what is known of it, in order of first mention (`specs/Table`); an event changes the rows that its subject
//! covers by a table (`specs/Effects`); a verdict on a subject is drawn from the rows that cover it (`specs/Verdicts`).
//!
//! Rows are found by keys of their subjects (`keys`): each row that a subject covers, or that covers it, stands under one of
//! the keys that are asked for, and whatever stands there is looked at whole. So a key that two subjects share costs time,
//! and changes nothing.
//!
//! Promised: a change that was made ready is taken in without memory, and leaves the rows as the table of effects says; no
//! two rows are of identical subjects; a verdict is the defined one. Whatever the claims, rows keep place and subject, at
//! most one is added, those that aren't covered stay, and proper rows stay proper (`laws`). Left out: that the effects and
//! verdicts are wise, and how many rows share a key.
#![tactic(auto)]

mod changing;
mod effects;
mod fingerprint;
mod keys;
pub mod laws;
mod marks;
mod preparing;
mod row;
mod standing;
mod state;
mod table;
mod tally;
mod threads;
mod update;
mod verdict;

pub use changing::Change;
pub use row::Row;
pub use standing::{Account, Device, Opt, Session};
pub use table::Table;
pub use verdict::Verdict;
