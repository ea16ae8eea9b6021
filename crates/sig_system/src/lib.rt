//! The adapters at the edge to the system: standard input and output, files, the network and the clock.
//!
//! They stand on `sig_outside` and `sig_links`, whose traits they meet:
//!
//! ```text
//!     standard input --> ReaderSource     standard output <-- WriterSink     file of a store --locked--> FileDisk
//!     SystemOutside --door--> TcpDoor --accept--> TcpLink and TcpSide --dial--> TcpLink
//!                   --settings--> a file as a source     --store--> a file as a disk
//! ```
//!
//! Promised: a call fails only where a count of faults rises by one, and a call that goes well leaves it; what comes back adds
//! its count, what is handed out has met no fault, and a link keeps where it was dialled. A write that takes nothing of a piece
//! that isn't empty is counted as a stall. Over a reader or writer that tells its bytes, as one in memory, a call gives or
//! takes exactly those. A read or write that the system interrupts is tried again, and is no fault. Reads and writes of files
//! go on after short ones; a sync is of the file's bytes and size; a file is opened so that a second process is refused. A
//! read and a write of a link, a request, a link as a whole, a dial and a round of pushes over one stream have limits of time;
//! one that is passed is a fault. An accept waits a second, and a door may ask the links that it gave to end soon.
//!
//! Left out: everything of content, since no contract can say what the system gives or takes; that a real disk keeps what it
//! was asked to sync; and how long it takes to look up the addresses of a name, which has no limit here.
#![tactic(auto)]

mod again;
mod bell;
mod calendar;
mod deadline;
mod file_disk;
mod notes;
mod outside_fault;
mod reader_source;
mod showing;
mod system_outside;
mod tcp_door;
mod tcp_link;
mod tcp_side;
mod timing;
mod topics;
mod writer_sink;

pub use again::{read_again, write_again};
pub use calendar::{Moment, moment_at};
pub use deadline::{
    EXCHANGE_MILLISECONDS, HURRY_MILLISECONDS, IDLE_MILLISECONDS, LINK_MILLISECONDS,
    READ_MILLISECONDS, REQUEST_MILLISECONDS, ROUND_MILLISECONDS, WRITE_MILLISECONDS,
};
pub use file_disk::{FileDisk, OpenFault};
pub use notes::Notes;
pub use outside_fault::OutsideFault;
pub use reader_source::ReaderSource;
pub use showing::{NOTE_BYTES, shown};
pub use system_outside::SystemOutside;
pub use tcp_door::{ACCEPT_MILLISECONDS, LACK_MILLISECONDS, LACKING_ACCEPTS, TcpDoor};
pub use tcp_link::{REST_BYTES, REST_MILLISECONDS, REST_READS, TcpLink};
pub use tcp_side::{DIAL_ADDRESSES, DIAL_SECONDS, TcpSide};
pub use timing::LOOK_MILLISECONDS;
pub use topics::{NOTE_SECONDS, NOTE_TOPICS};
pub use writer_sink::WriterSink;
