//! The command `manage`: a client's streams at a transmitter are brought to those that are declared (OpenID Shared Signals
//! Framework 1.0, sections 8.1.1 and 8.1.2).
//!
//! ```text
//!     <settings> -> bytes -> the transmitter, the declared streams -> given back
//!     side -> [a link to the transmitter, or to its gateway] -> request -> response -> line of what it changed -> .. -> side given back
//! ```
//!
//! It stands on `sig_declared` for the settings, on `sig_manager` for what is asked and heard, on `sig_dial` for a request over a
//! link of its own, and on `sig_opening` for what is read and given back. Promised: each request is the one that the manager asks
//! next, over a link of its own and with the transmitter's bearer; the line of a change is put once its response is taken, and
//! before anything else is asked; a response that can't be used ends the run, and so does the first fault; the counts are those
//! of the changes that were answered; each end has its cause; and what is opened is given back before the end. Left out: what a
//! transmitter makes of what it is asked.
#![tactic(auto)]

mod asking;
mod counting;
mod counts;
mod driving;
mod ending;
mod fault;
mod lines;
mod running;
mod threads;

pub use counts::{Change, Counts};
pub use driving::drive;
pub use ending::ManageEnd;
pub use fault::DriveFault;
pub use running::manage;
