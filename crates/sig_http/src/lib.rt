//! HTTP/1 messages (RFC 9112): requests and responses read from a source, and written to a sink.
//!
//! It stands on `sig_json` and `sig_outside`, and on the kit's `httparse` for the grammar of heads, `http` for methods
//! and phrases and `form_urlencoded` for queries. A message is read by its parts, each judged once:
//!
//! ```text
//!     | empty lines | start line | fields | empty line | body                       | the next message
//!     '--- the head section: `section`, `head` -------' '- by `framing`: `body` ---' '- kept in `Kept`
//! ```
//!
//! Promised: what is answered is what the bytes decide, however a source cuts them; a message ends where its framing says,
//! and the bytes after it are kept; each refusal is the fault that the shortest prefix of the message decides, and of the
//! faults that one prefix decides it is the first in a fixed order; what is written is read back as the message that it was.
//! Left out: fields that nobody here reads, the content of a trailer section, and when a source has bytes to give.
#![tactic(auto)]

mod answers;
mod body;
mod chunks;
mod fault;
mod fields;
mod framing;
mod head;
mod kept;
pub mod laws;
pub mod limits;
mod message;
mod piece;
mod query;
mod reading;
mod section;
mod target;
mod values;
mod writing;

pub use answers::{empty, fault_of, header, json, no_store, refusal_of};
pub use fault::{HttpFault, HttpRefusal, SendFault};
pub use kept::Kept;
pub use message::{Got, Header, Request, Response};
pub use query::query_value;
pub use reading::{read_request, read_response};
pub use writing::{write_request, write_response};
