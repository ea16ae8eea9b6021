//! The transmitter's node: its state, and the journal that keeps it (OpenID Shared Signals Framework 1.0, sections 7 and 8).
//!
//! It stands on `sig_outbox` for how calls are answered, on `sig_entry` for the records of facts, and on `sig_journal` for the
//! journal over two files and for what such a store stands for.
//!
//!     call -> answer and fact -> record -> room for all of it -> [journal] -> state with the fact -> answer, turn
//!
//! Promised: `TxNode::load` gives the state that a store stands for, or the file and the offset at which it is damaged.
//! `TxNode::take` answers by the table of `sig_calls`; at `Ok` no crash takes its change away, and a crash at any moment of the
//! call leaves the state before or the state after; a refusal comes only where a number would pass 2^62, where the disk has
//! counted a fault, or for memory, and changes nothing that is told. The turns since the node was loaded, or since
//! `TxNode::open_watch` opened its watch, are one history: each result is what the table says after the turns before it, over a
//! journal that ends where they left it; none was told that the store failed before the turn in which it did, and each was from
//! then on; and the state is what the state at first comes to with the changes of the turns (`laws`). Contracts see all turns;
//! when the program runs, a node has none of them, and hands each to the caller of its call (`TxNode::take_kept`). Left out:
//! who makes the calls; that a real file is such a disk.
#![tactic(auto)]

mod carrying;
mod keeping;
pub mod laws;
mod loading;
mod node;
mod plan;
mod records;
mod taken;
mod taker;
mod threads;
mod turn;
mod watched;

pub use node::TxNode;
pub use sig_journal::{LoadFault, LoadRefused, NodeFault as TxFault};
pub use taken::Taken;
pub use taker::Taker;
pub use turn::Turn;
