//! Disks in memory that stand still where they are asked to, and stores over two of them.
//!
//! It stands on `sig_outside` for disks in memory, on `sig_journal` for what a store of two files is, and on `sig_journal`
//! for the store as a node holds it.
//!
//!     store --stop after so many calls--> record is added, or not --crash--> what both files rest with --> store
//!
//! Promised: what a crash leaves of a store that isn't broken is that store (`proofs/Crashes`); what it leaves of one whose
//! disk stood still while a record was added has the record exactly where `rests_with_it` of `sig_journal` says so. Left
//! out: whose records they are.
#![tactic(auto)]

mod still_disk;
mod stores;

pub use still_disk::StillDisk;
pub use stores::{crashed_store, new_store};
