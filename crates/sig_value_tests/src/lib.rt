//! The tests of the crates below the nodes: of values, texts, disks and links, messages and tokens, one file a crate.
//!
//! It stands on these crates, and nothing stands on it: a crate with tests is proved a second time for them, and here there
//! is nothing else to prove. It has what neither a contract nor a line of a stored run says: sources, sinks and disks that
//! fail, stores by hand, links over loopback, tokens by an independent signer, bodies at their limits, and each call that
//! allocates and that no program makes, once.
#![tactic(auto)]

#[cfg(test)]
mod calls;
#[cfg(test)]
mod checkpoints;
#[cfg(test)]
mod copies;
#[cfg(test)]
mod delivery;
#[cfg(test)]
mod http;
#[cfg(test)]
mod http_limits;
#[cfg(test)]
mod journal;
#[cfg(test)]
mod jws;
#[cfg(test)]
mod outside;
#[cfg(test)]
mod set;
#[cfg(test)]
mod standard;
#[cfg(test)]
mod tcp;
#[cfg(test)]
mod tokens;
