//! Ticks: push streams that are due are tried, by the schedule of the courier (RFC 8935, section 2).
//!
//! It stands on `sig_courier` for when a stream is due, on `sig_txnode` for the transmitter's node, and on `sig_round` for the
//! turns of a link and for the push of a token.
//!
//! ```text
//!     the time --> each client, in order of name: its streams --> each push stream that is due: --Hand turn--> tokens:
//!         push, Settle turn, push, Settle turn, .. --> an attempt, which is noted
//! ```
//!
//! Promised: the streams that are tried are the push streams that the transmitter lists, each once, in that order, and of them
//! those that are due by the log of all attempts so far; a stream that offers nothing has no attempt. An attempt pushes its
//! tokens as a round does, and ends at the first push that has no answer; the next stream is tried all the same. It is good
//! exactly where each of its tokens was settled, and late otherwise. Each attempt is noted as it ends, also one that ends by
//! a fault; the room for its note is made before its first dial. Left out: when a tick is made.
#![tactic(auto)]

mod attempting;
mod bringing;
pub mod laws;
mod listing;
mod over_node;
mod owing;
mod ticking;
mod trying;

pub use attempting::{Trial, attempt};
pub use listing::{list, pushes_listed};
pub use over_node::tick;
pub use owing::owing_after;
pub use sig_journal::NodeFault as CourierFault;
pub use ticking::tick_over;
