//! A transmitter's ledger: its streams, what each owes, and all that was published.
//!
//! It stands on `sig_history` for what facts come to, and on `sig_accounts` for single streams. A `Ledger` is seen as its
//! books, which `specs/Books` reads as what a history came to, and as the room that it holds. Calls find, measure and reserve
//! through its methods: `address` finds which streams a fact tells, once, and all that is asked of the fact later goes by that;
//! `commit` takes it in without memory. The first publication of an id is found by one look-up in an `indexmap`.
//!
//! Promised: what a commit leaves is what the history comes to with one more fact; reserving changes no book; the books stay
//! whole: streams once and in order, owed numbers rising; which facts may follow is told exactly; a copy has the same books,
//! and ledgers are the same exactly where they come to the same. Left out: how calls are answered, which the crates above
//! say.
#![tactic(auto)]

mod ledger;
mod prepared;
mod sizes;
mod step;
mod threads;
mod tokens;

pub use ledger::Ledger;
pub use prepared::{Prepared, Spare};
pub use sig_accounts::{
    Account, Addressed, Debt, Publication, Refusals, Said, client_in, jti_text, stream_name,
};
pub use step::Step;
pub use tokens::{claims_for, news_of, owed_token, time_of};
