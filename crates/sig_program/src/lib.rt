//! The program `signals`, as a library: security event tokens by the OpenID Shared Signals Framework, judged and folded,
//! and a transmitter and a receiver under a script.
//!
//! ```text
//!     words -> command -> lines of the input -> what each line does, gathered -> output, in large pieces
//!                                            -> session table, what is owed   -> output, at the end
//! ```
//!
//! `run` does everything over any source and sink, and its contract says how each run ends: its status, why it ends so,
//! and the text that is written (`specs/Ends`). `start` leads there from the words as the system gives them, and `enter`
//! calls it over standard input and output. A command is a `Teller` of `sig_command`: `fold` is the one of `sig_fold`,
//! and `replay` that of `sig_world`.
//!
//! Left out: that bytes really reach or leave the system, which no contract can say, and how long anything takes.
#![tactic(auto)]

mod command;
mod ending;
mod entering;
mod finishing;
mod running;
#[cfg(test)]
mod tests;

pub use command::Command;
pub use ending::Ending;
pub use entering::{enter, words};
pub use finishing::numbered;
pub use running::{after_name, run, start};
