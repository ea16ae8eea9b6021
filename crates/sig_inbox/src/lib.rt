//! The pairs of issuer and identifier under which tokens are known (RFC 8417, section 2.2), each once.
//!
//! It stands on `sig_json` for texts, and on `indexmap` for one look-up a pair. Promised: a pair is found exactly where it
//! is there, without memory; it is added exactly where it isn't, and stands last; where room was made for it, one that is
//! new is put last without memory; the list is what its calls made of it, in order. Left out: what a token is, which
//! `sig_set` says.
#![tactic(auto)]

mod pair;
mod seen;
mod threads;

pub use pair::Pair;
pub use seen::{Found, Seen};
