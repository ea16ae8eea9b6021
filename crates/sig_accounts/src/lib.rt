//! Streams as a transmitter holds them in memory, with what each owes, and what it keeps of publications and counts.
//!
//! It stands on `sig_history` for what streams and facts are. An `Account` is seen as its stream, what it owes in small, and
//! the room that it holds; `specs/Owings` says what a fact leaves of it, and which tokens its debts are.
//!
//! Promised: each change of a stream is that of the history; it keeps its debts in order of number, in which they are looked for
//! by halves; a change takes no memory where its room was reserved, and reserving changes no stream; which streams a fact tells
//! is found once (`Addressed`), and what it makes on them goes by that; streams are the same exactly where their tokens say the
//! same; the last tokens that were reported as faulty are kept in order (`Refusals`). Tokens that are kept of a publication share
//! their streams' names, `debts` takes settled ones off at the front, and `subjects` looks those on a list up in a map, which no
//! contract says. `Listeners` leads from a subject to the streams that list it, exactly; so news about a simple subject ask those
//! alone that may hear of it. Left out: which changes a fact makes of all streams, which `sig_ledger` says.
#![tactic(auto)]

mod account;
mod accounts;
mod addressed;
mod copying;
mod counted;
mod counts;
mod debt;
mod debts;
mod delivering;
mod kept_refusal;
mod kept_token;
mod listeners;
mod lists;
mod names;
mod overseen;
mod places;
mod publication;
mod publish_id;
mod refusals;
mod reporting;
mod sameness;
mod seats;
mod shared_name;
mod subjects;
mod telling;
mod told_streams;

pub use account::Account;
pub use accounts::{
    account_named, client_account, name_at, place_named, put_account, reserve_subjects, streams_of,
};
pub use addressed::{Addressed, addressed_to};
pub use copying::{copy_accounts, copy_list};
pub use counted::Counted;
pub use counts::{count_one, created_by};
pub use debt::{Debt, Notice, Said};
pub use kept_refusal::KeptRefusal;
pub use kept_token::{KeptToken, tokens_issued};
pub use listeners::Listeners;
pub use names::{client_in, jti_text, stream_name};
pub use places::Places;
pub use publication::{Publication, publication_at};
pub use publish_id::{Form, PublishId};
pub use refusals::Refusals;
pub use sameness::same_accounts;
pub use shared_name::SharedName;
pub use telling::{hear_all, issued_on, reserve_tokens};
pub use told_streams::{ToldStreams, told_by};
