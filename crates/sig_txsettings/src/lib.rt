//! The settings of a transmitter: one JSON object, read member by member.
//!
//!     bytes -> object -> issuer, base, listen, operator, default_subjects, .. -> rules and the place to listen at
//!
//! It stands on `sig_settings` for the members, on `sig_terms` for the rules, and on `sig_calls` for which rules a
//! transmitter may have. Promised: settings are read exactly as `specs/Settings` says, and else the path of the first value
//! that is missing or wrong is told; what is read are rules that a transmitter's node takes. Left out: where the bytes come
//! from.
#![tactic(auto)]

mod client;
mod settings;
mod threads;
mod value;

pub use settings::{TxSettings, tx_settings};
