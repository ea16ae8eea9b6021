//! Security events, and what a token says of them (RFC 8417).
//!
//! It stands on `sig_caep`, `sig_risc` and `sig_subject`, and adds the two events of a stream (OpenID Shared Signals
//! Framework 1.0, sections 8.1.4 and 8.1.5). An event is found by its URI; any URI that no type has is an event that isn't
//! read and is kept by its URI alone.
//!
//! Promised: an event is read exactly where the relation of event, URI, payload and subject holds; else the payload that
//! is no object, the first member that fails, or the subject that doesn't fit is the fault, in this order. What is read of
//! a text, or of a member of what a text spells, is proper; what is written of a proper event is read as an equal one; and
//! a subject and an event that are read of a body nest in a token no deeper than there (`laws`). Left out: how a token
//! carries its events, which the crates above say.
#![tactic(auto)]

mod claims;
mod event;
mod event_fault;
mod event_type;
pub mod laws;
mod news;
mod reading;
mod status;
mod threads;
mod writing;

pub use claims::Claims;
pub use event::{Event, uri};
pub use event_fault::EventFault;
pub use event_type::EventType;
pub use news::News;
pub use reading::from_json;
pub use sig_json::PayloadFault;
pub use status::Status;
pub use writing::{event_text, to_json};
