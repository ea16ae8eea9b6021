//! A transmitter, as the links that it serves see it, and as a watch serves it: its calls, their turns and responses, and the
//! push rounds that follow (OpenID Shared Signals Framework 1.0, sections 7.1 and 8.1; RFC 8936, section 2; RFC 8935, section
//! 2).
//!
//! It stands on `sig_link` for how a link is served, on `sig_txroutes` for which call a request makes and how an answer is
//! told, on `sig_txnode` for the taker of turns, and on `sig_round` for turns and push rounds; and on `sig_watch` for
//! watches.
//!
//! ```text
//!     request -> call or refusal -> turn, at the time that the side tells -> response, and then a push round
//!               (`sig_txroutes`)   (`sig_round`)                       (`sig_txroutes`)    (`following`)
//! ```
//!
//! Promised: figures are told with metrics of some counts, and the streams of a page with some attempts: a lock hides that
//! they are this server's; each call makes one turn, at a time that the side tells before it; the response is that to its answer, 503 where
//! the store failed; and a push round follows just those answers that name streams for one, over those of them whose clients
//! the rules have, at the time of the turn. A fault of a push ends its round alone, and memory that runs out in it ends the
//! link. Of a watch (`sig_watch::serve_watch::<Transmitter<D>, ..>`): the node that is handed back is one history from the
//! state of the node that was handed in, under the same rules, and each link was served by these rules; opening it copies
//! nothing that grows with what was published. Left out: how links are read and written.
#![tactic(auto)]

mod company;
mod counting;
mod dispatching;
mod end;
mod errands;
mod following;
pub mod laws;
mod locked;
mod noting;
mod stored;
mod threads;
mod transmitter;

pub use company::{Company, Task};
pub use dispatching::Dispatching;
pub use end::TxEnd;
pub use locked::Locked;
pub use transmitter::Transmitter;
