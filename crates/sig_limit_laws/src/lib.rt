//! Each limit by its figure: laws that give every number that bounds the product, as the documents and the standards have it.
//!
//! Contracts name the constants and never the figures, so a changed constant would change what they promise with no word of
//! it; here it changes a statement. It stands on the crates that have constants, and none of the product stands on it.
//!
//! Promised by `laws`: the figures of HTTP messages, of links, of tokens and keys, of streams, of settings, and of stores.
#![tactic(auto)]

pub mod laws;
