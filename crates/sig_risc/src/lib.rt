//! Payloads of the events of RISC (OpenID Risk Incident Sharing and Coordination Profile 1.0).
//!
//! It stands on `sig_json`, whose tables of members it fills in: `specs/Table` has a row for each type of event, and
//! `specs/Events` says which event a payload is, how it is read and what is written of it.
//!
//! Promised: a payload is read as an event exactly where the relation holds, and else the first member that fails is
//! named; what is written of an event is its payload. Left out: members that no row names, which are passed over, and
//! whether the event fits its subject, which `sig_event` asks.
#![tactic(auto)]

mod event;
mod event_type;
pub mod laws;
mod reading;
mod threads;
mod writing;

pub use event::RiscEvent;
pub use event_type::RiscType;
pub use reading::from_json;
pub use sig_json::PayloadFault;
pub use writing::to_json;
