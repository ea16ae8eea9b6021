//! A receiver's commands over what the outside hands out: `receive`, which serves its store watch after watch, the links of
//! each side by side (RFC 8935, section 2), and `fetch`, which polls the transmitter that its settings name (RFC 8936,
//! section 2).
//!
//! ```text
//!     <settings> -> bytes -> rules, place -> given back
//!     <store> -> <store>.a, <store>.b -> node
//!     receive: place -> door -> node -> watch, watch, .. -> files given back, door given back -> end
//!     fetch:   node -> side -> round, round, .. -> side given back -> files given back -> end
//! ```
//!
//! It stands on `sig_opening` for what is opened and given back, on `sig_rxsettings` for the
//! settings, on `sig_rxnode` for the node over a store, on `sig_rxend` for a watch, and on
//! `sig_fetch` for the rounds. Promised: each end has its cause, by the outside's counts or by what
//! the settings and the store tell; where `receive` opens no door, the store is as it was; what is
//! opened is given back before the end, on every path; and where the store is told, what is put
//! back tells what it told before with the token texts of this run, which are those of the turns of
//! its links or of its rounds. Left out: that links are served at the same time, which no contract
//! can say, and that a link or a token comes.
#![tactic(auto)]

mod ending;
mod fetching;
mod noting;
mod peer;
mod serving;
mod settings;
mod threads;
mod watches;

pub use ending::FetchEnd;
pub use fetching::fetch;
pub use serving::receive;
pub use sig_fetch::Fetched;
pub use sig_logs::Differ;
pub use sig_opening::ServeEnd;
