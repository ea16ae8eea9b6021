//! Bodies by which tokens are delivered: pushes and their outcomes (RFC 8935), polls and their responses (RFC 8936), for
//! both ends.
//!
//! ```text
//!     receiver                                                transmitter
//!     `write_ask`  -- what it took, what it refuses -------->  `read_ask`
//!     `read_sets`  <- signed tokens under identifiers -------  `write_sets`
//!     `coded`      -- the code of a refused token ---------->  `outcome_of`
//!                  <- a signed token ------------------------  `push_request`
//! ```
//!
//! It stands on `sig_terms` for the types of what is asked and settled, which it shows as its own, on `sig_set` for signed
//! tokens, on `sig_http` for requests and responses, and on `sig_json` for values.
//!
//! Promised: a body is read as what it says exactly as defined, and else the first member that is wrong is the fault; what
//! one end writes is read by the other as what it was (`laws`); a response settles a push exactly by its status and its
//! code. Left out: routes, links, and what a transmitter or a receiver does with what was read.
#![tactic(auto)]

mod ask;
mod ask_writing;
mod body;
mod fault;
pub mod laws;
mod outcome;
mod push;
mod sets;
mod sets_writing;
mod signing;
mod threads;

pub use ask::read_ask;
pub use ask_writing::write_ask;
pub use fault::BodyFault;
pub use outcome::outcome_of;
pub use push::{coded, push_request};
pub use sets::{Listed, Sets, read_sets};
pub use sets_writing::write_sets;
pub use sig_terms::{Endpoint, Outcome, PollAsk, Reported, Token};
