//! The lines by which a server tells whoever runs it what it refused, what it pushed, which links failed and why it ended.
//!
//! It stands on `sig_json` for texts, on `sig_serving` for the ends of links, and on `sig_links` for the sides that are told
//! a line:
//!
//! ```text
//!     turn, outcome, cause --> line --> tell --> side --> standard error
//! ```
//!
//! Promised: each line is the text of its definition (`specs/Lines`), and telling one changes nothing that a side tells. A line
//! that there is no memory for is left out. Left out here: the time before a line, and how many lines of one topic are told,
//! which the adapters of `sig_system` decide.
#![tactic(auto)]

mod cause;
mod held;
mod lines;
mod telling;
mod threads;

pub use cause::{EndCause, LinkCause, PushCause, end_word};
pub use held::Held;
pub use lines::{
    ended, link_ended, peer_status, push_good, push_late, receiving, refused_listed, refused_push,
    reported, serving,
};
pub use telling::{tell, tell_end};
