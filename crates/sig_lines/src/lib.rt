//! Programs that answer lines of text by public calls, so that tables of cases are data.
//!
//!     line -> word and rest -> `Answering::told` -> answer after the line's number
//!
//! `run` reads the lines and puts the answers; a program says what each word is answered. Empty lines and lines that begin
//! with `#` are passed over and counted. A line that has more bytes than a script's, or is no case of the program's, is
//! answered `bad-case`, and the run goes on. It stands on `sig_outside` for lines and sinks, and on `sig_stream` for what
//! the objects of lines have in common.
//!
//! In lines and answers bytes stand as base64url without padding, the empty bytes as `-`; in answers a text stands as a
//! JSON string and a value as canonical text.
//!
//! Promised: `run` returns, and each of its statuses but 0 has its cause. Left out: what the answers are.
#![tactic(auto)]

mod answering;
mod members;
mod running;
mod spelling;
mod terms;

pub use answering::Answering;
pub use members::{copy_member, is_text_or_missing, number_at, texts_in, texts_value};
pub use running::{RunFault, run};
pub use spelling::{
    bare, cut_at_space, decoded, encoded, encoded_text, named, number_in, said, spelled,
    text_or_null, valued, yes_or_no,
};
pub use terms::{
    defaults_in, defaults_text, delivery_value, interval_in, requested_value, subject_in, want_in,
};
