//! Places under keys: the newest is found by one look-up, and each leads to the one before it.
//!
//! It stands on `sig_json` for its refusal of memory, and on `indexmap` for the look-up. A place may stand under many keys,
//! and a key may have many places; nothing is ever taken out. Promised: the places of a key come newest first, each that was
//! put under it and no other, and are counted, both without memory; where room was made, a place is put without memory. Left
//! out: what a place and a key stand for. A caller whose keys are shorter than what they stand for checks each place that it
//! is given.
#![tactic(auto)]

mod entry;
mod places;
mod places_of;
mod threads;

pub use places::Places;
pub use places_of::PlacesOf;
