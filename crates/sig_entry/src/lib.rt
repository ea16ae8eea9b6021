//! The records of journals: the bytes of a fact at a transmitter, and of a token at a receiver.
//!
//! It stands on `sig_fields` for the kinds of fields, on `sig_terms` for facts, on `sig_subject` and `sig_event` for the
//! JSON texts of subjects and payloads, and on `sig_stream` for the endpoint that a URL spells. A fact is its kind in one
//! byte and its fields in order (`specs/Facts`); a token's record is 01 and the token.
//!
//! Promised: `encode` gives the one spelling of a fact, and `decode` the fact that bytes spell, or the offset of the first
//! part that is cut or breaks its rule; the same holds of tokens. A proper fact is decoded of its spelling; what is decoded
//! is proper, and the bytes are its spelling; and no spelling begins with another (`laws`). Left out: the frame of a
//! record, which `sig_journal` writes, and whether a fact fits the history before it.
#![tactic(auto)]

mod coding;
mod fact_kind;
mod facts;
pub mod laws;
mod news;
mod streams;
mod threads;
mod token;

pub use coding::{decode, encode};
pub use news::{NewsField, SubjectField, ToldField};
pub use sig_fields::DecodeFault;
pub use streams::{ConfField, StatusField};
pub use token::{decode_token, encode_token};
