//! The push of one token to its receiver (RFC 8935, section 2).
//!
//! It stands on `sig_delivery` for the request of a push and for what a response settles, on `sig_terms` for tokens and
//! rules, and on `sig_dial` for a request over a link of its own.
//!
//! ```text
//!     token --> where it leads: its endpoint, or the gateway where that is https
//!           --> request --> [a dialled link] --> response --> what it settles
//! ```
//!
//! Promised: what is answered is what the response settles that the dialled link's bytes decide; the link leads to the
//! token's own endpoint, or to the gateway, and is sent the push of that token and nothing else; a push that has no such
//! answer says why, and settles nothing. Left out: which tokens are pushed, and what becomes of what they settle.
#![tactic(auto)]

mod fault;
mod pushing;
mod threads;

pub use fault::PushFault;
pub use pushing::push;
