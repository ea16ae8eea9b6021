//! A transmitter keeps its clients apart: what one of them finds and is told rests on nothing that others did (OpenID Shared
//! Signals Framework 1.0, section 8).
//!
//! It stands on `sig_history` for what facts come to, and on `sig_calls` for how calls are answered. It holds definitions and
//! laws alone, and nothing stands on it.
//!
//! Promised by `laws`: a client's streams, what each owes and how many it ever made are those of a history without the facts of
//! other clients, and so are what its own calls are told and the facts that they make.
#![tactic(auto)]

pub mod laws;
