//! Making an empty store: what a program does once, before a transmitter or a receiver is first served.
//!
//!     <store> -> <store>.a, <store>.b -> opened -> empty? -> made and synced -> given back
//!
//! It stands on `sig_journal` for what a store of two files is, and on `sig_links` for where files come from. Promised: a
//! store that is made tells its kind and its id, no snapshot and no record; one that isn't empty is left as it was; each
//! other end has its cause; and in every case what was opened is given back. Left out: a crash in the middle, of which
//! nothing is said.
#![tactic(auto)]

mod ending;
mod making;
mod names;
mod store_id;
mod threads;

pub use ending::InitEnd;
pub use making::init;
pub use names::{FileNames, file_names};
pub use store_id::store_id_of;
