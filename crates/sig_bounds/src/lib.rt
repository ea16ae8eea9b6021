//! How large what a text says may be: what JSON spells is no larger than its text (RFC 8259), and so what requests and scripts
//! want of a stream is proper (OpenID Shared Signals Framework 1.0, section 8.1.1).
//!
//! It stands on `sig_stream` for how a want is read and on `sig_calls` for what a proper one is. It holds laws alone, which
//! the crates that read calls rest on.
//!
//! Promised by `laws`: the strings of a value have no more bytes together than the text that spells it, and what is wanted in
//! a text that is no longer than a request's body is proper.
#![tactic(auto)]

pub mod laws;
