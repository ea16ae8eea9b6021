//! The receiver: what it answers to a token, and what it keeps of those that it took.
//!
//!     text -> judged -> pair new? -> made ready -> [journal] -> committed
//!     text of a journal that is loaded -> claims -> pair new? -> taken
//!
//! It stands on `sig_set` for the judgement, on `sig_inbox` for the pairs that were seen, and on `sig_sessions` for the
//! session table. What it promises is said over what is kept (`specs/Receiver`): it answers by the judgement and by the
//! pairs that are known, it takes each pair once, and its rows are the fold of the texts that it took. Two laws lead from
//! there to the journal, the list of those texts (`specs/Journal`): journals join, and an answer over a journal is the one
//! over what is kept of it (`laws`). The printed text of answers and rows is that of `specs/Printed`.
//!
//! Left out: that the journal stands on a disk, and everything that is asked over a link.
#![tactic(auto)]

mod heard;
mod hearing;
pub mod laws;
mod printing;
mod receiver;
mod take_fault;
mod threads;

pub use heard::Heard;
pub use hearing::{Hearing, Ready};
pub use printing::{answer_line, counts_line, row_line};
pub use receiver::Receiver;
pub use take_fault::TakeFault;
