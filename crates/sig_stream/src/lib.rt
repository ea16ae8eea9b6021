//! What is read and written of streams: what a receiver wants, what an operator publishes, and how a configuration is told
//! (OpenID Shared Signals Framework 1.0, section 8.1.1).
//!
//! It stands on `sig_terms`, whose types it shows as its own, on `sig_event` and `sig_subject` for what a publication says,
//! and on `sig_json`; it stands beside the transmitter's core and knows nothing of histories.
//!
//! Promised: a body is read as what it wants or publishes exactly as defined, and else the first member that is wrong is
//! the fault; a configuration is written as the object that the standard has, with the event types that are delivered. A
//! URL spells an endpoint exactly where that endpoint is read of it, and what is read of a publication's body is proper:
//! its name is a UUID with hyphens and in lower case, and its subject and event may be published (`laws`). Left out: what
//! the calls do, and how bodies come and go.
#![tactic(auto)]

mod configuration;
mod endpoint;
pub mod laws;
pub mod limits;
mod publication;
mod publish_fault;
mod threads;
mod want;
mod want_fault;

pub use configuration::conf_json;
pub use endpoint::endpoint_of;
pub use publication::publish_of;
pub use publish_fault::PublishFault;
pub use sig_terms::{
    Answer, Call, Client, Defaults, Delivery, Endpoint, Fact, Issued, Outcome, PollAsk, Reported,
    Rules, SettledItem, StreamConf, Token, Want, delivers, fits,
};
pub use want::want_of;
pub use want_fault::WantFault;
