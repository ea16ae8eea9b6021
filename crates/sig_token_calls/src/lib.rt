//! The calls that make, hand out and settle tokens (RFC 8936, section 2; RFC 8935, section 2; OpenID Shared Signals Framework
//! 1.0, sections 8.1.4 and 8.1.5).
//!
//! It stands on `sig_ledger` for the state, and on `sig_calls` for how each call is answered: one file a call, and each public
//! function answers by its line of that table. Each call whose fact makes tokens answers by `make`: the streams that the fact
//! tells are found once, none of their tokens may be too long, and then no number too great.
//!
//! Promised: a call changes no book, answers by the table, and holds room for the fact that it makes. The size that is told is
//! that of the largest payload that the fact would make; a number is too great exactly where a token would get one above 2^62.
//! One payload is written for a fact, with what all of its tokens say alike (`payloads`); the size of each is then a sum over
//! its stream's own texts (`sizes`). Left out: streams, which `sig_stream_calls` brings, and taking the fact in, which the
//! ledger does.
#![tactic(auto)]

mod handing;
mod making;
mod offering;
mod operating;
mod payloads;
mod polling;
mod publishing;
mod reply;
mod settling;
mod sizes;
mod verdicts;
mod verifying;

pub use handing::{deliver, hand};
pub use making::{goes_past, make, may_be_made};
pub use operating::operator_status;
pub use payloads::largest_payload;
pub use polling::poll;
pub use publishing::publish;
pub use settling::settle;
pub use verifying::verify;
