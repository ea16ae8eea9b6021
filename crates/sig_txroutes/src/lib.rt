//! The HTTP interface of a transmitter: which call a request makes, and how each answer is told (OpenID Shared Signals
//! Framework 1.0, sections 7.1 and 8.1; RFC 8936, section 2).
//!
//! It stands on `sig_http` for requests, responses and refusals, on `sig_stream` for what is wanted, published and told of
//! a stream, on `sig_delivery` for what a poll asks and for pages of tokens, on `sig_terms` for calls, answers and rules, and
//! on `sig_calls` for what a proper call is. It stands beside the transmitter's core.
//!
//! ```text
//!     method, path -> route -> bearer -> query or body -> call
//!     (`route`)                (`bearer`)  (`body`)       (`client`, `operator`)
//!     answer -> status, and a document in JSON
//!     (`answering`)        (`document`), or the text of `metrics`
//! ```
//!
//! Promised: a request makes the call of the route with its path and method, where the bearer is the route's and the
//! query or body says one, and else it is refused with the first of path, method, bearer and place that is wrong; each
//! answer has the status and the document of its row; a call is a proper one; a client's bearer makes that client's calls
//! alone, where each bearer is one's; and a response that is no page of tokens tells of the rules the issuer, the prefix of
//! addresses and the default subjects alone, so no bearer and no key of theirs (`laws`). A stream's configuration tells what
//! its client gave, its `authorization_header` too.
//! Left out: how messages are read and written.
#![tactic(auto)]

mod answering;
mod bearer;
mod body;
mod client;
mod document;
pub mod laws;
mod metrics;
mod operator;
mod place;
mod refused;
mod route;
mod routing;
mod told_stream;

pub use answering::{figured_with, listed_with, response_of};
pub use route::{Row, row_for};
pub use routing::call_of;
pub use told_stream::{Pushed, ToldStream};
