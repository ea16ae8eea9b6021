//! What lies under a node's lock beside the node: the turns of the links that are open, and one history of the logs of those
//! that have ended.
//!
//! It stands on `sig_logs` for the comparison of a log with its link's turns, and on `sig_book` for the history.
//!
//! ```text
//!     a turn of a link -> keep -> the turns of open links
//!     a link ends, with its log -> end: compared with its turns, which go; the log joins the history -> receipt
//!     a watch ends -> settle: whether all was the same; shows: whether a receipt is of this desk's history
//! ```
//!
//! Promised: where nothing is told that differs, each log of the history has the turns of its link, of all that the node ever
//! kept, and each of those is of a link that the desk knows. What is told differs. A receipt of a log shows that the log
//! stands in the history. The turns of a link are dropped when it ends, so a desk holds the turns of open links alone; the
//! logs take no memory in it.
#![tactic(auto)]

mod desk;
mod marks;
mod receipt;

pub use desk::Desk;
pub use receipt::Receipt;
