//! A command over the lines of its input, and what drives it.
//!
//! It stands on `sig_outside` for lines, sources and sinks. A command is a `Teller`: it takes line after line, gathers
//! what each prints, and prints the rest at the end of the input. `tell_all` drives it:
//!
//! ```text
//!     source -> lines -> Teller::tell -> gathered -> sink, in large pieces
//!                        Teller::close -----------> sink, at the end of the input
//! ```
//!
//! Promised (`specs/Telling`): how the command ends, and why, by what input and output counted; what was read and
//! written; and that all that is gathered is put before the input is asked for more. Left out: how long a line takes.
#![tactic(auto)]

mod gathering;
mod lines_end;
mod stop;
mod teller;
mod telling;

pub use gathering::{put_gathered, put_if};
pub use lines_end::LinesEnd;
pub use stop::{Stop, TellFault};
pub use teller::Teller;
pub use telling::tell_all;
