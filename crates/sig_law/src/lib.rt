//! What holds of a transmitter and a receiver side by side, whatever is lost, repeated or reordered, and wherever either
//! crashes (OpenID Shared Signals Framework 1.0, with RFC 8935 and RFC 8936).
//!
//! It stands on `sig_calls` for how the transmitter answers, and on `sig_receiver` for how the receiver does. It holds
//! definitions and laws alone: `specs/World` says what a schedule of calls, deliveries, answers and crashes makes of both
//! ends, by the same words as the contracts of their calls; `specs/Law` says what holds after every schedule.
//!
//! Promised by `laws`: every schedule leaves a world that is lawful, and histories only grow. An act has two parts, what is
//! kept and what is told, and a crash comes between them or before both: that a store tells one of these two is what a node
//! promises of its disks.
#![tactic(auto)]

pub mod laws;
