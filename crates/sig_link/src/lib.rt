//! One link of a server, whichever end it is: its requests in order, the turns that they make, their responses, and what
//! follows them (RFC 9112, section 9.3).
//!
//! It stands on `sig_http` for messages, on `sig_serving` for what is written whatever is asked, and on `sig_links` for the
//! link and the side beside it. What the end is, a transmitter or a receiver, is an `End`: which call a request makes, its
//! turn, the response, and what follows.
//!
//! ```text
//!     link -> request -> call or refusal -> turn -> response -> link, and then what follows the turn
//!            (`sig_http`)   (`End::call_of`) (`End::turn`) (`answering`)      (`End::follow`)
//! ```
//!
//! Promised: the requests are those that the link's bytes decide, one after the other; each call makes one turn of the
//! taker, and a refusal makes none; what is written are the responses to those turns and refusals, in order, and last the
//! response that closes the link where it breaks the protocol or memory runs out; what follows a turn is done once its response
//! is written whole; the log has the turns, in order; each end comes with its cause. Left out: how links come, who keeps the
//! turns, and whether a response arrives.
#![tactic(auto)]

mod answering;
mod course;
mod end;
mod log;
mod serving;
mod threads;
mod turning;
mod work;

pub use answering::faulted;
pub use end::End;
pub use log::LinkLog;
pub use serving::serve_link;
