//! The command `serve`: a transmitter's server over what the outside hands out, watch after watch (OpenID Shared Signals
//! Framework 1.0, sections 7 and 8). The links of a watch are served side by side, each in a thread of its own.
//!
//! ```text
//!     <settings> -> bytes -> rules, place -> given back
//!     place -> door
//!     <store> -> <store>.a, <store>.b -> node -> watch, watch, .. -> files given back
//!     door given back -> end
//! ```
//!
//! It stands on `sig_opening` for what is opened and given back, on `sig_txsettings` for the
//! settings, on `sig_txnode` for the node over a store, and on `sig_txend` for a watch. Promised:
//! each end has its cause, by the outside's counts or by what the settings and the store tell;
//! where no door is opened, the store is as it was; what is opened is given back before the end, on
//! every path; and where the store is told, what is put back tells what it told before with the
//! facts of this run, which are those of the turns of its links. Left out: that links are served at
//! the same time, which no contract can say, and that a link comes.
#![tactic(auto)]

mod noting;
mod serving;
mod settings;
mod watches;

pub use serving::serve;
pub use settings::settings_from;
pub use sig_logs::Differ;
pub use sig_opening::ServeEnd;
