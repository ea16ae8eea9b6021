//! What every run of a server opens and gives back, whoever's node it serves: the bytes of its settings, the two files of its
//! store and the node that is loaded from them, and how such a run ends.
//!
//! ```text
//!     <settings> -> source -> bytes -> source given back
//!     <store>.a, <store>.b -> two disks -> node -> two disks -> given back
//! ```
//!
//! It stands on `sig_links` for the outside, on `sig_settings` for the faults of settings, on `sig_journal` for why no store is
//! loaded, and on `sig_watch` for what is served. What is loaded, be it a transmitter or a receiver, is an instance of
//! `Stored`, which says what its store stands for. Promised: bytes that are told are read whole up to their limit; where
//! nothing was read or opened, the outside counted a fault of that kind, a file of the store isn't there, or memory ran out; no
//! file is made; the node that is loaded stands for what its files told; and what was opened is given back on every path. Left
//! out: what settings say, and the door, which each server opens by itself before its store; `specs/` has what both say of the
//! door and of their watches.
#![tactic(auto)]

mod ending;
mod files;
mod opening;
mod reading;
mod settings;
mod stored;
mod threads;
mod unopened;
mod unread;

pub use ending::ServeEnd;
pub use files::{files_of, put_files};
pub use opening::{give_back, open};
pub use reading::{ReadFault, whole_of};
pub use settings::bytes_from;
pub use stored::Stored;
pub use unopened::Unopened;
pub use unread::Unread;
