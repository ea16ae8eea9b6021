//! Both nodes over stores in memory, which crash and stand still.
//!
//! It stands on `sig_txnode` and `sig_rxnode` for the nodes, and on `sig_still` for disks that stand still and for what a
//! crash leaves of a store.
//!
//!     call -> node -> answer
//!     call -> node whose disk stands still -> answer, or: what the disk rests with -> node that is loaded again
//!
//! Promised: a node that is loaded again from what a crash leaves is the same as before; and one whose disk stood still
//! while a call was brought to it has what that call was to keep exactly where `rests_with_it` of `sig_journal` says so
//! (`specs/Sending`, `specs/Receiving`). Left out: who makes the calls.
#![tactic(auto)]

mod halted;
mod receiving;
mod sending;

pub use halted::Halted;
pub use receiving::{crash_rx, new_rx, stop_rx, take_rx};
pub use sending::{crash_tx, new_tx, stop_tx, take_tx};
