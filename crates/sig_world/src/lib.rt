//! A transmitter and a receiver side by side, run by a script (OpenID Shared Signals Framework 1.0, with RFC 8935 and RFC
//! 8936).
//!
//! It stands on `sig_nodes` for both nodes over stores in memory, on `sig_script` for what a line asks for, on
//! `sig_schedules` for what lines print and make of the world, on `sig_command` for what a command over lines is, and on
//! `sig_fold` for the session table that is printed at the end. `replay` runs both nodes under a script.
//!
//!     line -> an end acts, or crashes while it acts -> what it prints -> output
//!
//! Promised: `replay` writes the text that `replay_telling` of `sig_schedules` gives, and ends by its causes. Left out:
//! everything that may be lost or repeated but by the script's own lines.
#![tactic(auto)]

mod calls;
mod deliveries;
mod ending;
mod hearer;
mod replay_text;
mod replayer;
mod reply;
mod running;
mod sender;
mod settings;

pub use running::replay;
