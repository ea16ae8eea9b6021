//! Links, sides and doors in memory, for tests and for whole runs in memory.
//!
//! It stands on `sig_links`, whose traits it meets, and tells all that they can tell:
//!
//! ```text
//!     MemDoor: coming --accept--> a link and its side --back--> served, in order
//!     MemSide: ahead  --dial--> a link                --back--> sent, in order        times --now--> the last one stays
//! ```
//!
//! Promised: a call fails where that is planned by its number, and else only where it is refused memory, or where a side has
//! no further link. What is handed out begins with nothing written, nothing sent and no fault; room for what will come back
//! is made when it is handed out.
//!
//! Left out: that a link waits for anybody.
#![tactic(auto)]

mod coming;
mod lent;
mod lent_disk;
mod lent_source;
mod memory_door;
mod memory_link;
mod memory_outside;
mod memory_side;
mod named;
mod outside_doors;
mod outside_settings;
mod outside_sides;
mod outside_stores;
mod planned;

pub use coming::Coming;
pub use lent_disk::LentDisk;
pub use lent_source::LentSource;
pub use memory_door::MemDoor;
pub use memory_link::MemLink;
pub use memory_outside::MemOutside;
pub use memory_side::MemSide;
pub use named::{NamedDisk, NamedSource};
