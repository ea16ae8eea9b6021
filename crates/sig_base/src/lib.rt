//! The snapshot of a transmitter: what its history came to as a plain record, and as bytes.
//!
//! It stands on `sig_fields` for the kinds of fields, on `sig_entry` for configurations, statuses, subjects and news as fields,
//! on `sig_terms` for what the record is made of, and on `sig_history` and `sig_owing` for what histories come to. Nothing of
//! the program stands on it yet. A snapshot is 01 and the fields of a base in order (`specs/Snapshot`); each of its lists has a
//! count of eight bytes, and nothing follows the last field:
//!
//! ```text
//!     clients        client: text; how many streams it ever made: number
//!     streams        configuration, as a record has it; status: byte; its reason: maybe text; subjects on its list: list;
//!                    when a verification was last asked for: maybe time; how many tokens were made for it: number;
//!                    what it owes: list of number, time, subject, URI, payload
//!     publications   id: text; subject, URI, payload; the tokens that it made: list of stream: text, and number
//!     refusals       how many were left out: number; those that are kept: list of stream: text, number, id: maybe text,
//!                    code: maybe text, time
//! ```
//!
//! Promised: `encode_base` gives the spelling of a base, and `decode_base` the base that bytes spell, or the offset of the
//! first part that is cut or breaks its rule. A proper base is decoded of its spelling; what is decoded is proper, and the
//! bytes are its spelling; no spelling begins with another, and no two proper bases have one. A base forgets nothing of what a
//! history came to but the store's identifier, which stands in the head of its file (`laws`). Left out: a text of 2^32 bytes or
//! more, which has no spelling that is read back; whether a base is one that some history came to; the file that holds a
//! snapshot, which `sig_journal` writes.
#![tactic(auto)]

mod base;
mod coding;
mod fields;
pub mod laws;
mod lists;
#[cfg(test)]
mod tests;
mod threads;

pub use base::{Base, BasePublication, BaseRefusals, BaseStream, BaseToken, ClientCount};
pub use coding::{decode_base, encode_base};
pub use sig_fields::DecodeFault;
