//! Each of the twenty-two answers of a transmitter tells the truth: what it says of what stands is so after the call, and a refusal
//! comes exactly for its cause (OpenID Shared Signals Framework 1.0, section 8; RFC 8935, section 2; RFC 8936, section 2.4).
//!
//! It stands on `sig_calls` for how calls are answered, and on `sig_fact_laws` for which subjects a stream has. It holds laws
//! alone, and none of the product stands on it.
//!
//! Promised by `laws`: a law for each answer, under proper rules and over what is whole, and for each refusal one more, that it
//! comes wherever its cause is. `specs/Given` says what the answers mean that give what was asked for, `specs/Refused` what
//! those mean that refuse it.
#![tactic(auto)]

pub mod laws;
