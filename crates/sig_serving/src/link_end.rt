use sig_http::{HttpFault, SendFault};

/// Why a link is served no more.
#[derive(Clone, Copy, PartialEq, Eq)]
pub enum LinkEnd {
    /// The link gave no byte where a request would begin.
    End,
    /// As many requests were answered as one link may have, and the last did not ask for closing.
    Spent,
    /// The last request that was answered is HTTP/1.0 or asks for closing (RFC 9112, section 9.6).
    Closed,
    /// No request is read, for this fault; never `Memory`.
    Http(HttpFault),
    /// A response isn't written whole, for this fault; never `Memory`.
    Sent(SendFault),
    /// Out of memory.
    Memory,
}
