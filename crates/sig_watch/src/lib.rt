//! A watch of a node: the links that a door gives, each served in a thread of its own from when it is accepted, over one node
//! under a lock (RFC 9112, section 9.3); and how the watch ends: what its links came to, beside the node that they asked.
//!
//! It stands on `sig_links` for doors, links and sides, on `sig_serving` for what is seen of them, and on `sig_desk` for the
//! turns of open links and the comparison of each link's log with them. What is watched, be it a transmitter or a receiver, is
//! an instance of `Served`, which says how its links are served.
//!
//! ```text
//!     node -> rules, room -> lock <-- link 1 in a thread <-- door
//!             and desk            <-- link 2 in a thread <-- door
//!                                 ..                             shut, a fault, a broken node, or as many as a watch serves
//!          a link has ended -> its log is compared with the node's turns of it, under the lock, and both are dropped;
//!                              a receipt is left, and it goes back -> door; its place is free for the next
//!          <- the node from under the lock, its desk beside the receipts -> Disagree, Broken, Halted, DoorFault or Done
//! ```
//!
//! Promised: the node that is handed back follows the node that was handed in, and is one history; links are numbered from 1 in
//! order of acceptance, and no more than `LINKS_AT_ONCE` are open at any time; each was served under its number and ended, and
//! went back to the door once, with its side; each log has the node's turns of its link, and each turn of the node is of a link
//! with a log, or that something differs is told; and why no further link was accepted is told. Contracts see all logs and all
//! turns; when the program runs, a watch has those of open links alone, and sixteen bytes for each link that has ended. The
//! host is asked before each link is accepted. Room is taken before the first one is, so serving them takes no memory here.
//! The end is by the comparison first, then by the node, and then by the door.
//!
//! Left out: that threads run at the same time, and when, so how soon a link that has ended goes back; how links are served,
//! and what the node answers. Where the system makes no thread, a link is served before the next is accepted. That a log could
//! not be compared is told as a difference at the place 0; no contract says that this never comes.
#![tactic(auto)]

mod accepting;
mod attending;
mod course;
mod ending;
mod endings;
mod guest;
mod host;
pub mod limits;
mod report;
mod returning;
mod room;
mod running;
mod served;
mod shared;
mod visit;
mod watching;

pub use attending::{Attended, attend};
pub use ending::{differ_of, end_of};
pub use guest::Guest;
pub use host::Host;
pub use report::{Report, WatchEnd};
pub use room::Room;
pub use served::Served;
pub use shared::{Lasting, Opened, Shared};
pub use watching::serve_watch;
