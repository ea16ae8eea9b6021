//! A request over a link that is dialled for it alone (RFC 9110, section 3; RFC 9112, section 9.6).
//!
//! It stands on `sig_links` for sides and their links, and on `sig_http` for the request that is written and the response
//! that is read.
//!
//! ```text
//!     side --dial--> link <- the request, whole
//!                         -> interim responses, at most five, and the response that its bytes decide
//!     side <--back-- link, whatever came of it
//! ```
//!
//! Promised: each call dials at most one link, and gives each one back that it dialled; where the side tells it, it is known
//! where the link led, what was written to it, and that what is answered is what its bytes decide behind interim responses
//! (RFC 9110, section 15.2); nothing is read before the whole request is written; a fault of the dial or of the link comes
//! only where the side's count rose. Left out: where a link should lead, and what a response means.
#![tactic(auto)]

mod asking;
mod exchange;
mod fault;
pub mod limits;
mod threads;

pub use asking::ask;
pub use fault::AskFault;
