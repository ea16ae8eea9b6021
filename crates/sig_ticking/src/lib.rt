//! The command `courier`: push streams that are due are tried at each line of the input, by a schedule that begins empty (RFC
//! 8935, section 2).
//!
//! ```text
//!     <settings> -> bytes -> rules -> given back
//!     <store> -> <store>.a, <store>.b -> node
//!     side -> line: tick -> attempts -> output, line: tick -> .. -> side given back -> files given back -> end
//! ```
//!
//! It stands on `sig_serve` for the settings of a transmitter, on `sig_opening` for what is opened and given back, on
//! `sig_tick` for a tick over the node, and on `sig_outside` for the lines of the input. Promised: each end has its cause, by
//! what the input, the output and the outside counted or by what the settings and the store tell; there is one tick a line,
//! whatever the line holds; what a tick attempted is put before the next line is asked for; what is opened is given back
//! before the end, on every path; and where the store is told, what is put back tells what it told before with the facts of
//! the ticks' turns. Left out: when a line comes.
#![tactic(auto)]

mod ending;
mod lines;
mod running;
mod text;
mod threads;

pub use ending::CourierEnd;
pub use lines::tick_lines;
pub use running::courier;
