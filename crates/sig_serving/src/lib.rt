//! What both servers have in common: what is written to a link whatever was asked on it, why a link and a watch end, and
//! what contracts see of links, sides and doors (RFC 9112, section 9.6; RFC 9110, section 15).
//!
//! It stands on `sig_links` for links, sides and doors, and on `sig_http` for the responses that it writes.
//!
//! ```text
//!     response -> link, whole; or the link ends
//!     request that can't be read -> the response to its fault -> link, and the link ends
//!     out of memory -> a fixed text -> link, and the link ends
//! ```
//!
//! Promised: a response is written whole, or a prefix of it where a write failed, which the link's count shows, or else the
//! text that says that memory ran out; each end of a link names its cause. Left out: what a request asks, and how it is
//! answered.
#![tactic(auto)]

mod link_end;
mod sending;
mod stop;
mod threads;

pub use link_end::LinkEnd;
pub use sending::{refuse, run_out, send};
pub use stop::Stop;
