//! The receiver's node: a receiver whose tokens stand in a journal over the two files of a store.
//!
//!     call -> judged -> pair new? -> made ready, framed -> [journal] -> taken in -> answer, turn
//!     store that is loaded -> record -> token text -> pair new? -> taken in
//!
//! It stands on `sig_receiver` for what is answered and kept, on `sig_journal` for the journal, and on `sig_entry` for the
//! records. Promised (`specs/Take`): `take` answers by the table (`specs/Answers`); a token that is answered `Accepted`
//! stands in the journal, so that no crash takes it away, and has had its effect; a crash at any moment of a call leaves a
//! store that loads to the state before or after it; a refusal has its cause, and changes nothing. What is kept is always
//! that of the token texts in the journal (`laws`). The turns since the node was loaded, or since `RxNode::open_watch` opened
//! its watch, are one history (`specs/Node`): each result is what the table says after the turns before it, over a journal
//! that ends where they left it; none was told that the store failed before the turn in which it did, and each was from then
//! on; and the texts that were added since are those of the turns. Contracts see all turns; when the program runs, a node has
//! none of them, and hands each to the caller of its call (`RxNode::take_kept`). Left out: links, routes and what is fetched
//! of a peer.
#![tactic(auto)]

mod answer;
mod call;
mod journalled;
mod keeping;
pub mod laws;
mod loading;
mod node;
mod recording;
mod rules;
mod state;
mod taken;
mod taker;
mod threads;
mod turn;
mod watched;

pub use answer::RxAnswer;
pub use call::RxCall;
pub use node::RxNode;
pub use rules::{Peer, Principal, RxRules};
pub use sig_journal::NodeFault as RxFault;
pub use state::RxState;
pub use taken::RxTaken;
pub use taker::RxTaker;
pub use turn::RxTurn;
