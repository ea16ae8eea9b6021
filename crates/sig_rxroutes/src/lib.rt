//! The HTTP interface of a receiver: which call a request makes, and how each answer is told (RFC 8935, section 2; the
//! session table is defined here).
//!
//! It stands on `sig_http` for requests, responses and refusals, on `sig_counts` for how metrics are spelled, on `sig_subject`
//! and `sig_sessions` for what is asked and told of the session table, on `sig_delivery` for the response that refuses a token, and on `sig_rxnode` for calls,
//! answers and rules. It asks no node.
//!
//! ```text
//!     method, path -> route -> bearer -> query or body -> call
//!     (`route`)                (`bearer`)  (`asked`)      (`routing`)
//!     answer -> status, and a document in JSON
//!     (`answering`)        (`document`), or the text of `metrics`
//! ```
//!
//! | Method and path | Bearer | Call | Response |
//! |---|---|---|---|
//! | POST `/push` | a principal's | the body, a token | 202, or 400 with the code of its refusal |
//! | GET `/sessions?from=` | the reader's | a page of the session table | 200, the rows |
//! | POST `/sessions/check` | the reader's | what the table says of the body, a subject | 200, the verdict |
//! | GET `/metrics` | the reader's | the figures | 200, metrics |
//!
//! Promised: a request makes the call of the route with its path and method, where the bearer is the route's and the
//! query or body says one, and else it is refused with the first of path, method, bearer and place that is wrong; each
//! answer has the status and the document of its row; a pushed token is brought by the principal whose bearer is shown and
//! by no other, and the session table and the figures are read by their reader alone (`laws`).
//! Left out: what becomes of a token or of a question, and how messages are read and written.
#![tactic(auto)]

mod answering;
mod asked;
mod bearer;
mod document;
pub mod laws;
mod metrics;
mod route;
mod routing;

pub use answering::response_of;
pub use metrics::figured_with;
pub use route::{RxRoute, route_at};
pub use routing::call_of;
