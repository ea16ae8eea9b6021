//! A receiver, as the links that it serves see it, and as a watch serves it: its calls, and their turns and responses (RFC
//! 8935, section 2).
//!
//! It stands on `sig_link` for how a link is served, on `sig_rxroutes` for which call a request makes and how an answer is
//! told, on `sig_rxnode` for the taker of turns, and on `sig_watch` for watches.
//!
//! ```text
//!     request -> call or refusal -> turn -> response
//!               (`sig_rxroutes`) (`turning`) (`sig_rxroutes`)
//! ```
//!
//! Promised: each call makes one turn; the response is that to its answer, and 503 where the store failed; nothing follows, and
//! the side is asked nothing. Of a watch (`sig_watch::serve_watch::<Receiver<D>, ..>`): the node that is handed back is one
//! history from the state of the node that was handed in, under the same settings, and each link was served by these settings.
//! Left out: how links are read and written.
#![tactic(auto)]

mod counting;
mod end;
pub mod laws;
mod locked;
mod noting;
mod receiver;
mod stored;
mod threads;
mod turning;

pub use counting::Counting;
pub use end::RxEnd;
pub use locked::Locked;
pub use receiver::Receiver;
