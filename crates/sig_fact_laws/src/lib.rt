//! What a transmitter's facts leave alone, for whom a publication makes a token, and that no two tokens have one identifier
//! (OpenID Shared Signals Framework 1.0, sections 7 to 9; RFC 8417, section 2.2).
//!
//! It stands on `sig_history` for what facts come to, and on `sig_owing` for what of it was proved. It holds laws alone, and
//! none of the product stands on it.
//!
//! Promised by `laws`: setting up a stream leaves what any stream owes; making and settling tokens leaves how a stream was set
//! up; a publication makes a token exactly for the streams that are due one, said in the standard's terms; and all tokens that
//! a transmitter ever makes have identifiers of their own.
#![tactic(auto)]

pub mod laws;
