//! What a receiver wants of a stream can't forge the head of a push: the endpoint and the authorization of a want are read back
//! from the push as they were written (OpenID Shared Signals Framework 1.0, section 6.1; RFC 8935, section 2.1; RFC 9112).
//!
//! It stands on `sig_stream` for how a want is read, and on `sig_delivery` and `sig_http` for how a push is written and read.
//! It holds laws alone, and none of the product stands on it.
//!
//! Promised by `laws`: host and path of an endpoint that is wanted are visible ASCII, its path has no fragment, and its
//! authorization no control byte; the head of a push to it fits; and a push to it is read back with that path, query and
//! authorization, and with no other field.
#![tactic(auto)]

pub mod laws;
