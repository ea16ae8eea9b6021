//! Watches of both servers over links that wait for one another: a link is held in the midst of its request until another one
//! was answered, or has come so far too. And a transmitter's watches over sides whose dials reach nobody, or a receiver.
//!
//! It stands on both servers' watches, and on the links in memory of `sig_memory_links`, and nothing stands on it: a crate with
//! tests is proved a second time for them, and here only that a node of a watch moves between threads is proved. It has what no
//! contract can say: that links are served at the same time, and that a transmitter does by itself what is due.
#![tactic(auto)]

#[cfg(test)]
mod board;
#[cfg(test)]
mod errands;
#[cfg(test)]
mod held_door;
#[cfg(test)]
mod held_link;
#[cfg(test)]
mod held_side;
#[cfg(test)]
mod outcome;
#[cfg(test)]
mod receiver;
#[cfg(test)]
mod stores;
#[cfg(test)]
mod transmitter;
mod watched;

pub use watched::{watch_receiver, watch_transmitter};
