//! Links, and where they come from: the traits of the network and of what a program is handed from outside.
//!
//! It stands on `sig_outside`, whose sources, sinks and disks these traits hand out:
//!
//! ```text
//!     Outside --door(place)--> Door --accept--> Link, and the Side beside it
//!             --side-------------------------->           Side --dial(place)--> Link
//!             --settings(name)--> a source     --store(name)--> a disk
//! ```
//!
//! What is handed out is given back to where it came from: a dialled link to its side, an accepted link and its side to the
//! door, and the rest to the outside.
//!
//! Promised by whatever meets the traits: a call fails only where a count of faults rises by one, what comes back adds its
//! faults to the count, and where an object tells what it will give and what it was given back, those lists go on in order.
//! An object that tells nothing, as an adapter to the system, has counts alone. `FaultCount` is such a count.
//!
//! Left out: that a link comes, and how long a call takes.
#![tactic(auto)]

mod accepted;
mod door;
mod fault_count;
mod link;
mod outside;
mod side;

pub use accepted::Accepted;
pub use door::Door;
pub use fault_count::FaultCount;
pub use link::Link;
pub use outside::Outside;
pub use side::Side;
