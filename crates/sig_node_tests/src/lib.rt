//! The tests of both nodes, one file a node, and of the copies that no program makes.
//!
//! It stands on the nodes, on the settings that they are made by, and on the disks in memory of `sig_outside`, and nothing
//! stands on it: a crate with tests is proved a second time for them, and here there is nothing else to prove. It has what no
//! script says: a disk that fails in the midst of an append, and works again after that.
#![tactic(auto)]

#[cfg(test)]
mod copies;
#[cfg(test)]
mod receiver;
#[cfg(test)]
mod stores;
#[cfg(test)]
mod transmitter;
