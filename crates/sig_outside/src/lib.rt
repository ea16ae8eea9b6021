//! The outside, as the product sees it: what gives bytes, what takes them, and the lines of what is given.
//!
//! It stands on `sig_json`. `Source` and `Sink` are traits whose meanings say what is left and what was written, where
//! the object tells it, and how many calls failed. `put_all` puts bytes whole; `Lines` reads a source line by line:
//!
//! ```text
//!     source --take, in large pieces--> | given | kept: a line LF a line LF part of a line   |
//!                                               ^ start place; `next` gives the first line of what is kept
//! ```
//!
//! `MemSource` and `MemSink` are a source and a sink in memory, for tests and for whole runs in memory.
//!
//! Promised: no byte is lost or given twice, a refusal comes only where a count rose or its bound is reached, and after a
//! refusal it is known what was taken. Left out: when a source that is no memory version has bytes to give; and how many
//! bytes it is asked for at once.
#![tactic(auto)]

mod disk;
mod disk_call;
mod failed;
mod held;
mod line;
mod lines;
mod memory_disk;
mod memory_sink;
mod memory_source;
mod mode;
mod place;
mod planned;
mod reach;
mod sink;
mod source;

pub use disk::Disk;
pub use failed::Failed;
pub use line::{Line, LineFault};
pub use lines::Lines;
pub use memory_disk::MemDisk;
pub use memory_sink::MemSink;
pub use memory_source::MemSource;
pub use mode::Mode;
pub use place::Place;
pub use sink::{PutFault, Sink, put_all};
pub use source::Source;
