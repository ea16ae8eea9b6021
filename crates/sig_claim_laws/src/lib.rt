//! What is acknowledged stands in the receiver's journal with just the claims that the transmitter made (RFC 8417, section 2).
//!
//! It stands on `sig_law` for what schedules make of a transmitter and a receiver, and on `sig_fact_laws` for the identifiers of
//! tokens. It holds laws alone. `sig_law` says that the journal has the issuer and identifier of each acknowledged token. Since no
//! two tokens that were ever made have one identifier, and each text in the journal tells claims that were made, it has their
//! claims: not another token's under the same name.
//!
//! Promised by `laws`: both, after every schedule of calls, deliveries, answers and crashes.
#![tactic(auto)]

pub mod laws;
