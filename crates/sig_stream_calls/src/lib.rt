//! The calls that make and change streams (OpenID Shared Signals Framework 1.0, sections 8.1.1 to 8.1.3), and those by which the
//! operator reads how all streams stand and deletes one.
//!
//! It stands on `sig_ledger` for the state, and on `sig_calls` for how each call is answered: one file a call, and each
//! public function answers by its line of that table.
//!
//! Promised: a call changes no book, answers by the table, and holds room for the fact that it makes. Left out: tokens, which
//! `sig_token_calls` brings, and taking the fact in, which the ledger does.
#![tactic(auto)]

mod clients;
mod configuring;
mod creating;
mod overseeing;
mod reading;
mod refusing;
mod statuses;
mod subjects;
mod turn;

pub use configuring::{delete, patch, put};
pub use creating::create;
pub use overseeing::{figures, operator_delete, streams};
pub use reading::{read, read_all};
pub use refusing::refused;
pub use statuses::{get_status, set_status};
pub use subjects::{add, remove};
