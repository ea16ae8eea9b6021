//! A snapshot in place of a store's records, in the file of the store that isn't in force.
//!
//! A snapshot is written in three pieces, and each of them ends with a sync:
//!
//! ```text
//!     the other file:  | gate | of an earlier generation ..      in force: the file that is only borrowed
//!     close_gate       |  00  | of an earlier generation ..      only where that gate was open
//!     write_content    |  00  | header | snapshot | closed gate
//!     open_gate        |  5a  | header | snapshot | closed gate  in force: this file
//! ```
//!
//! The gate is never written together with anything else, and nothing is written after an open gate: so no checksum is
//! trusted. A file whose gate is closed has no meaning, and the file in force isn't written.
//!
//! Promised: at `Ok` of `write_snapshot` the other file is in force, with the name and the snapshot that are given and no
//! record, and no crash takes that away; a crash at any moment before leaves what the store told, or that, and until the
//! last piece only what the store told; a disk that stands still rests with the one or the other, by how many calls it made;
//! `Big` comes exactly where a number is too great, `Memory` before any call of the disk, and `Store` only where the disk
//! has counted a fault. Left out: what a snapshot says, and who reads it; that a real file is such a disk.

mod fault;
mod gates;
mod heading;
mod snapshot;
mod staging;
mod writing;

pub use fault::CheckFault;
pub use heading::Heading;
pub use snapshot::write_snapshot;
