//! The terms of a transmitter: its rules, streams' configurations, calls, answers, tokens, and the facts that make its history
//! (OpenID Shared Signals Framework 1.0, sections 7 and 8; RFC 8936 for polls).
//!
//! It stands on `sig_event` for what a token says, on `sig_subject` for whom it is about, and on `sig_jws` for the key that
//! signs. Its types are records of named parts; each can be copied, and compared part by part.
//!
//! Promised: a copy equals its original; two values are the same exactly where every part is; a stream delivers an event
//! type exactly where transmitters publish it and the stream asked for it, or for none in particular; a subject fits a
//! stream by the stream's default subjects and its list. Left out: what calls do, which the crates above say.
#![tactic(auto)]

mod answer;
mod call;
mod comparing;
mod configuration;
mod copying;
mod endpoint;
mod fact;
mod fault;
mod fitting;
mod refused_token;
mod rules;
mod standing;
mod threads;
mod token;
mod want;

pub use answer::Answer;
pub use call::{Call, Outcome, PollAsk, Reported};
pub use configuration::StreamConf;
pub use copying::copy_optional_items;
pub use endpoint::Endpoint;
pub use fact::{Fact, SettledItem};
pub use fault::PrepareFault;
pub use fitting::{delivers, fits, fits_listed, is_published_uri, is_requested};
pub use refused_token::RefusedToken;
pub use rules::{Client, Rules};
pub use standing::Standing;
pub use token::{Issued, Token};
pub use want::{Defaults, Delivery, Want};
