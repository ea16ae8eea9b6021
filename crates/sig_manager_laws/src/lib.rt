//! What the exchange of a manager comes to with a transmitter of this product (OpenID Shared Signals Framework 1.0, section
//! 8.1.1): what the transmitter writes is what the manager reads.
//!
//! It stands on `sig_manager` for what is asked and heard, on `sig_stream` and `sig_txroutes` for what the transmitter writes
//! and for the calls that requests make, and on `sig_calls` and `sig_history` for how these are answered. It holds laws alone,
//! and none of the product stands on it.
//!
//! Promised by `laws`: the object of a configuration is read back as the want that it was made from; a client that asks for its
//! streams hears of each of them and of no other; the request of each step makes the call of that step.
//!
//! Left out: that the steps end in the declared streams.
#![tactic(auto)]

pub mod laws;
