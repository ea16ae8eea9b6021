//! How a transmitter answers each call, and which fact the call makes (OpenID Shared Signals Framework 1.0, section 8; RFC
//! 8936, section 2.4; RFC 8935, section 2).
//!
//! It stands on `sig_history` for what the facts so far come to, and on `sig_stream` for the endpoint that a URL spells. It
//! holds definitions and laws alone: a file of `specs/` for each group of calls, and `specs/Table` with one line a call.
//!
//! Promised by `laws`: the fact of a proper call fits and is as the rules have it, its answer hands out what is owed, and it
//! counts as acknowledged only what the call says was taken; what its answer says of a stream's configuration or status is so
//! after the call; a call is refused for its numbers exactly where its fact would give one above 2^62. `sig_isolation` says
//! what keeps clients apart.
//!
//! What a call is told has one of four shapes: it changes nothing, makes a fact that tells no stream anything, makes one with
//! tokens, or settles tokens. `proofs/ToldLemmas` and `proofs/SettledLemmas` prove the laws of each shape, so a new call is a
//! file of definitions, a file of proofs that names its shape, and a line in `specs/Table` and in `proofs/RegularLemmas`.
#![tactic(auto)]

pub mod laws;
pub mod limits;
