//! `fold`: a verdict for each line of the input, and the session table at its end.
//!
//! It stands on `sig_command` for what a command over lines is, on `sig_receiver` for the receiver, and on `sig_set` for
//! whom it trusts. `specs/Fold` gives the text that it prints. `print_table` puts the rows and the counts; every command
//! that ends with the session table shares it.
#![tactic(auto)]

mod folder;
mod tabling;

pub use folder::Folder;
pub use tabling::print_table;
