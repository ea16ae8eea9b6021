//! The tests of the crates of tokens, settings, and what a receiver and a transmitter keep, one file a crate.
//!
//! It stands on these crates, and nothing stands on it: a crate with tests is proved a second time for them, and here there
//! is nothing else to prove. It has what neither a contract nor a line of a stored run says: calls that no program makes,
//! outside values, and calls that fail.
#![tactic(auto)]

#[cfg(test)]
mod outbox;
#[cfg(test)]
mod paths;
#[cfg(test)]
mod receiver;
#[cfg(test)]
mod set;
#[cfg(test)]
mod settings;
#[cfg(test)]
mod subjects;
#[cfg(test)]
mod tokens;
