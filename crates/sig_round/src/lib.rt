//! Rounds of pushes: what push streams offer is brought to their receivers (RFC 8935, section 2).
//!
//! It stands on `sig_txnode` for what answers calls, turn by turn, and on `sig_push` for the push of one token.
//!
//! ```text
//!     each stream --Hand turn--> tokens, one after another: --push--> what its response settles --Settle turn-->
//! ```
//!
//! Promised: each stream that is given has a round of its own, in order, or is passed over, where the taker may do so. A round is one Hand turn over its stream, and for the
//! first tokens that were handed, in order, one push each and one Settle turn with what it settles; the log and the taker
//! have these turns and no others. It ends at the first push that has no answer, and that token stays owed; the next
//! stream's round follows all the same, unless memory ran out. Left out: which streams have rounds, and when.
#![tactic(auto)]

mod asking;
mod delivering;
pub mod laws;
mod log;
mod noting;
mod passing;
mod round;
mod threads;

pub use asking::turn_of;
pub use delivering::deliver;
pub use log::TurnLog;
pub use noting::note_late;
pub use passing::Passing;
pub use round::{hand, is_brought, push_rounds, settled_one, tokens_handed};
