use sig_json::{MemoryRefusal, Text};
use thiserror::Error;

/// Why no message is read.
#[derive(Clone, Copy, Debug, PartialEq, Eq, Error)]
pub enum HttpFault {
    /// The head section is no head of HTTP/1.0 or HTTP/1.1 of at most `HEADER_FIELDS` fields (RFC 9112, sections 2 to 5),
    /// or the target of a request has a fragment (section 3.2).
    #[error("the head is no HTTP head")]
    Head,
    /// A request of HTTP/1.1 has no field `host`, or a request has several (RFC 9112, section 3.2).
    #[error("the request doesn't say its host once")]
    Host,
    /// The head section has more than `HEAD_BYTES` bytes, or more lines than those fields need.
    #[error("the head is too long")]
    HeadLong,
    /// How the body ends isn't said, or is said twice (RFC 9112, section 6.3), or a chunk is malformed (section 7.1).
    #[error("the body's end isn't said")]
    Length,
    /// The body has more than `REQUEST_BODY_BYTES` or `RESPONSE_BODY_BYTES` bytes, or in chunks more bytes beside them than a
    /// body of that length has in chunks of `CHUNK_BYTES`.
    #[error("the body is too long")]
    BodyLong,
    /// The body of a request has a coding other than `identity` (RFC 9110, section 8.4).
    #[error("the body has a coding")]
    Coding,
    /// A request of HTTP/1.1 wants `expect` to be met (RFC 9110, section 10.1.1).
    #[error("the request has an expectation")]
    Expect,
    /// The source ended within a message.
    #[error("the message is cut")]
    Cut,
    /// The source failed.
    #[error("the source failed")]
    Link,
    /// Out of memory.
    #[error("out of memory")]
    Memory,
}

/// Why a message isn't written whole.
#[derive(Clone, Copy, Debug, PartialEq, Eq, Error)]
pub enum SendFault {
    /// The sink failed.
    #[error("the sink failed")]
    Link,
    /// The sink took nothing of a piece that isn't empty.
    #[error("the sink took nothing")]
    Stuck,
    /// Out of memory. Nothing is written.
    #[error("out of memory")]
    Memory,
}

/// Why the routes of a server refuse a request that was read.
#[derive(Debug, Drop)]
pub enum HttpRefusal {
    /// No route has this path (RFC 9110, section 15.5.5).
    Path,
    /// The path has routes of other methods alone, which are the value of the field `allow` (section 15.5.6).
    Method { allow: Text },
    /// The bearer isn't the route's (section 15.5.2).
    Auth,
    /// The query or the body is wrong at this place.
    Bad(Text),
    /// Out of memory.
    Memory,
}

impl<R: MemoryRefusal> From<R> for HttpFault {
    ghost use Rattle.std.specs.Prelude.{◌≡◌};
    ghost use Rattle.sig_http.specs.declared.fault.HttpFault.TheVariants as faults;

    ghost from_gives = { λ _ e. e ≡ faults.Memory };

    fn from(_refusal: R) -> HttpFault {
        HttpFault::Memory
    }
}

impl<R: MemoryRefusal> From<R> for SendFault {
    ghost use Rattle.std.specs.Prelude.{◌≡◌};
    ghost use Rattle.sig_http.specs.declared.fault.SendFault.TheVariants as faults;

    ghost from_gives = { λ _ e. e ≡ faults.Memory };

    fn from(_refusal: R) -> SendFault {
        SendFault::Memory
    }
}

impl<R: MemoryRefusal> From<R> for HttpRefusal {
    ghost use Rattle.std.specs.Prelude.{◌≡◌};
    ghost use Rattle.sig_http.specs.declared.fault.HttpRefusal.TheVariants as refusals;

    ghost from_gives = { λ _ e. e ≡ refusals.Memory };

    fn from(_refusal: R) -> HttpRefusal {
        HttpRefusal::Memory
    }
}
