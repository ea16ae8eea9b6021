//! Fetching: a receiver polls a transmitter in rounds, and takes what is listed (RFC 8936, sections 2.4 and 2.5).
//!
//! It stands on `sig_rxnode` for the node that takes tokens, on `sig_delivery` for the poll that is written and the page that
//! is read, and on `sig_dial` for a request over a link of its own.
//!
//! ```text
//!     turns of the round before --> poll: what was taken, what was refused
//!         --> [a link to the peer, or to its gateway] --> response --> page
//!         --> each listed token, under its name: a turn of the node
//! ```
//!
//! Promised: each round asks once, and tells what became of the tokens of the round before and of no others, so that each
//! token is acknowledged or reported once, and acknowledged only where its pair of issuer and name is kept; each listed token
//! is judged under its name and for the peer's issuer, in the order of the page; a response other than a page ends the fetch;
//! and each fault has its cause. The turns of one page are kept at a time, until the next poll tells of them. Left out: when a
//! fetch is made.
#![tactic(auto)]

mod asking;
mod counting;
mod fault;
mod fetched;
mod fetching;
mod noting;
mod reading;
mod rounding;
mod taking;
mod threads;

pub use fault::FetchFault;
pub use fetched::Fetched;
pub use fetching::fetch;
