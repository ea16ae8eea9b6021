//! The transmitter's core: streams, the tokens made for them, and what each stream still owes (OpenID Shared Signals
//! Framework 1.0, sections 7 and 8; RFC 8936 for polls).
//!
//! It stands on `sig_ledger` for the state and on `sig_stream_calls` and `sig_token_calls` for the calls, and shows the terms
//! of `sig_terms` as its own. `sig_calls` says how a call is answered and which fact it makes, over what the facts so far
//! come to by `sig_history`.
//!
//! Promised: `Outbox::prepare` answers by that table and leaves the state; its fact fits, and room is held for it;
//! `Outbox::commit` takes the fact in without memory, and leaves what the history comes to with it; `Outbox::apply` does so
//! with a fact that was journalled, and refuses exactly one that doesn't fit. A copy is equal, and two states are compared by
//! what their histories came to (`Outbox::copy`, `Outbox::same`). It tells what each stream owes, and what all do together
//! (`Outbox::owed`, `Outbox::owed_in_all`). Left out: disks, networks and time, which the layers
//! above bring.
#![tactic(auto)]

mod applying;
mod dispatch;
mod outbox;
mod threads;
mod totals;

pub use applying::ApplyFault;
pub use outbox::Outbox;
pub use sig_ledger::{Prepared, Step};
pub use sig_terms::{
    Answer, Call, Client, Defaults, Delivery, Fact, Issued, Outcome, PollAsk, PrepareFault,
    RefusedToken, Reported, Rules, SettledItem, Standing, StreamConf, Token, Want, delivers, fits,
};
