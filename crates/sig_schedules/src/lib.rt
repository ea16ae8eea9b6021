//! What the lines of a script print and make of the world, and that a script is a schedule.
//!
//! It stands on `sig_script` for what a line asks for, on `sig_law` for the world and for what holds over every schedule, on
//! `sig_command` for what a command over lines is, and on `sig_journal` and `sig_entry` for what both stores hold.
//!
//!     line -> an end acts -> what it keeps, and what it tells
//!          -> an end crashes while it acts -> what it keeps, or nothing
//!
//! `specs/Replay` has what each line prints and the world after it; `specs/Schedules` has the events that it lets happen.
//! Promised by `laws`: the world of a script is what its schedule makes of a new one, crashes among it, so what holds over
//! every schedule holds of it. Left out: the code that plays lines, which `sig_world` has.
#![tactic(auto)]

pub mod laws;
