//! Payloads of the events of CAEP (OpenID Continuous Access Evaluation Profile 1.0).
//!
//! It stands on `sig_json`, whose tables of members it fills in: `specs/Table` has a row for each type of event, with its
//! members in the order in which they are checked, and `specs/Events` says which event a payload is, how it is read and
//! what is written of it.
//!
//! Promised: a payload is read as an event exactly where the relation holds, and else the first member that fails is
//! named; what is written of an event is its payload. Left out: members that no row names, which are passed over, and
//! types of event that the table doesn't have.
#![tactic(auto)]

mod change;
mod common_members;
mod compliance;
mod direction;
mod event;
mod event_type;
mod initiator;
mod kind;
pub mod laws;
mod principal;
mod reading;
mod risk_level;
mod threads;
mod writing;

pub use change::Change;
pub use common_members::Common;
pub use compliance::Compliance;
pub use direction::Direction;
pub use event::{CaepEvent, from_json, to_json};
pub use event_type::CaepType;
pub use initiator::Initiator;
pub use kind::CaepKind;
pub use principal::Principal;
pub use risk_level::RiskLevel;
pub use sig_json::PayloadFault;
