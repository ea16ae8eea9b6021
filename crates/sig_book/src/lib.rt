//! One history that several threads add to, of which nothing is kept when the program runs: who saw it so far can show so
//! later, wherever it has got to.
//!
//! It stands on the kit's `logbook`, for a ghost list behind a word that all threads share.
//!
//! ```text
//!     front: what was seen of the history -> add an entry -> it was the next: the front has it last
//!                                                         -> others came before: the front is longer, without it
//!     two fronts of one book -> one covers the other
//! ```
//!
//! Promised: of two fronts of one book one begins with the other, and which one does is told; so what stands in a front stands
//! at the same place in every later one. An entry that was added comes right behind all that the front had. The entries take
//! no memory; a book is a number, and so is a front.
#![tactic(auto)]

mod book;

pub use book::{Book, Front, Naming, Opened};
