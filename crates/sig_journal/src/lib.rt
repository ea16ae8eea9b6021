//! A journal of records over the two files of a store, one of which is in force.
//!
//! It stands on `sig_json` and `sig_outside`. A file is a header, a snapshot and records; each record stands after a gate
//! of one byte, and a closed gate ends them (`specs/Layout` has the table):
//!
//! ```text
//!     | gate | header | snapshot | open gate | length | payload | open gate | length | payload | closed gate | no meaning
//!       ^ open in the file in force                                             `end` is the place after it ^
//! ```
//!
//! `append` writes length, payload and the closed gate of the next record after the closed gate that stands last, syncs,
//! opens that gate by a write of its own, and syncs. So no checksum is trusted: a torn write lies after a closed gate or is
//! the gate alone.
//!
//! A checkpoint puts a snapshot in place of the records: it is written into the other file, which is then in force
//! (`checkpoint`).
//!
//! A `Store` is the journal as a node holds it, with the moment at which it broke. A node changes its state by records alone: a
//! record stands in the journal before it has its effect. So the state that a store stands for is found by taking its records
//! up in order (`specs/Taking`), whatever the state is; each node says by a `Taking` how it takes one up.
//!
//!     state before --record is added--> any crash: state before or after --Ok--> any crash: state after
//!
//! Promised: at `Ok` of `append` no crash takes the record away, and at any moment before a crash leaves what the store told
//! or that with the record; `load` gives what the store tells, and `Damaged` names the file and the offset exactly where the
//! bytes are no journal; a refusal comes only where a disk has counted a fault, where 2^62 is passed, or for memory. Of any
//! node whose store stands for its state (`specs/Standing`), an added record leaves it standing for the state after it; a crash
//! at any moment of the call leaves the one or the other; and where a disk failed, the store is broken from then on, and stands
//! for the state before or after. Left out: a crash while `make` runs; that a real file is such a disk; what a payload means.
#![tactic(auto)]

mod added;
mod checkpoint;
mod content;
mod durable;
mod fault;
mod framed;
mod gate;
mod header;
mod journal;
mod kind;
mod layout;
mod loaded;
mod loading;
mod making;
mod node_fault;
mod reading;
mod records;
mod store;
mod threads;

pub use checkpoint::CheckFault;
pub use fault::LoadFault;
pub use framed::{Framed, frame};
pub use journal::{AppendFault, Journal};
pub use kind::Kind;
pub use layout::{GATE_OPEN, HEADER_BYTES, MAGIC, RECORD_HEAD_BYTES, STORE_ID_BYTES, VERSION};
pub use loaded::{LoadRefused, Loaded, load};
pub use making::{MakeFault, make};
pub use node_fault::NodeFault;
pub use store::Store;
