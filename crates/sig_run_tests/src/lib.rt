//! Runs of commands over an outside in memory, whose clock a test sets.
//!
//! It stands on the command `courier` and on the outside in memory of `sig_memory_links`, and nothing
//! stands on it. It has what contracts say by definitions and a reader wants by numbers: at which
//! ticks a late push is tried again, and what is printed of it.
#![tactic(auto)]

#[cfg(test)]
mod courier;
#[cfg(test)]
mod store;
