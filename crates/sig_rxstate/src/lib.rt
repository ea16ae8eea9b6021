//! The snapshot of a receiver: its state as bytes.
//!
//! It stands on `sig_fields` for the kinds of fields, on `sig_entry` for subjects, and on `sig_inbox` and `sig_sessions` for
//! what a receiver keeps. Nothing of the program stands on it yet. A snapshot is 02, the list of the pairs in order and the
//! list of the rows in order (`specs/State`), each with a count of eight bytes:
//!
//! ```text
//!     pair   issuer, identifier: two texts
//!     row    subject: the JSON text of it, as a text
//!            session, account, device: a byte each, the place of the value in its list, from 00
//!            reset, stale: a flag each
//!            opt: a byte likewise
//!            level: maybe a text
//! ```
//!
//! Promised: `encode_state` gives the spelling of the pairs and rows, and `decode_state` those that bytes spell, or the
//! offset of the first part that is cut or breaks its rule. A pair that is there already, and a row of a subject that has
//! one, break a rule, and begin at their first byte. A proper state is decoded of its spelling; what is decoded is proper,
//! and the bytes are its spelling; no spelling begins with another, and no two proper states have one (`laws`). Left out: a
//! text of 2^32 bytes or more, which has no spelling that is read back; the file that holds a snapshot, which `sig_journal`
//! writes.
#![tactic(auto)]

mod fields;
pub mod laws;
mod lists;
mod pairs;
mod rows;
mod standing;
mod state;
#[cfg(test)]
mod tests;

pub use sig_fields::DecodeFault;
pub use state::{decode_state, encode_state};
