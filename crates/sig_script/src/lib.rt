//! The lines of a script, which runs a transmitter and a receiver side by side: what each line asks for.
//!
//! It stands on `sig_terms` for the calls that lines make, on `sig_stream` for the bodies of wants and publications, and on
//! `sig_subject` for those of subjects. A line is words with one space between them, and where it has JSON, that stands to
//! its end; `specs/Script` has a row for each first word.
//!
//!     bytes -> text in UTF-8 -> first word -> names -> number, status or JSON -> line
//!
//! Promised: a line is read exactly where `specs/Script` has one for its bytes, and as that one; a line that is too long, is
//! no text in UTF-8 or has none of the forms is none. Each call of a line is proper and tells the transmitter no answer, and
//! each time is at most 2^62 (`laws`). Left out: what the line makes of both ends, which the crates above say.
#![tactic(auto)]

mod bodies;
mod calls;
mod cutting;
pub mod laws;
mod line_word;
mod numbers;
mod script;
mod script_node;
mod stopping;

pub use script::{ScriptAct, ScriptLine, script_line};
pub use script_node::ScriptNode;
