//! What was, of which nothing is kept when the program runs: a list that contracts see whole.
//!
//! ```text
//!     value -> what contracts see of it, put last; the value itself goes where its owner likes
//! ```
//!
//! Promised: what was put stays, in order, and nothing else comes. An element has no bytes, so however many are put, it takes
//! no memory but a block of none. A contract speaks so of all that a server did, which the server itself doesn't keep.
#![tactic(auto)]

mod past;

pub use past::Past;
