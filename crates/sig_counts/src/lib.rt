//! What a server counts of its links, its requests and its pushes, and how metrics tell it.
//!
//! It stands on `sig_json` for texts, on `sig_http` for responses, and on `indexmap` for one look-up an event. A label names what came; how often it came is
//! its count, from the start of the server on.
//!
//! ```text
//!     event, event, .. --add--> count of each label --put--> lines of metrics
//! ```
//!
//! Promised: one more of a label makes its count one greater and leaves all others, and what is told is each count
//! of each label once, in Prometheus' text format 0.0.4. A label for which memory is refused isn't counted. Left out: which
//! labels there are, and that each event is counted.
#![tactic(auto)]

mod counts;
mod lines;
mod responses;
mod tally;
mod threads;

pub use counts::Counts;
pub use lines::{put_line, put_number, put_value};
pub use responses::telling;
pub use tally::Tally;
