//! The settings of a receiver: one JSON object, read member by member.
//!
//!     bytes -> object -> audience, listen, reader, issuers, principals, poll, .. -> rules and the place to listen at
//!
//! It stands on `sig_settings` for the members and on `sig_rxnode` for the rules. Promised: settings are read exactly as
//! `specs/Settings` says, and else the path of the first value that is missing or wrong is told; a peer that is reached by
//! `https` has its gateway. Left out: where the bytes come from.
#![tactic(auto)]

mod issuer;
mod key;
mod peer;
mod principal;
mod settings;
mod threads;

pub use settings::{RxSettings, rx_settings};
