//! The causes that lines name, each with its word.

ghost use Rattle.std.specs.Prelude.{◌≡◌};
ghost use Rattle.sig_notes.specs.Lines as spec;

use sig_http::{HttpFault, SendFault};
use sig_serving::LinkEnd;

/// Why a token was not settled that was to be pushed.
#[derive(Clone, Copy, Debug, PartialEq, Eq)]
pub enum PushCause {
    /// The token has no endpoint.
    NoEndpoint,
    /// The endpoint is `https`, and there is no gateway to it.
    NoGateway,
    /// The dial failed.
    Dial,
    /// The link failed.
    Link,
    /// The link gave no response (RFC 9112).
    NoResponse,
    /// The receiver answered by what settles nothing (RFC 8935, section 2.4).
    Kept,
    /// Out of memory.
    Memory,
}

/// By which fault a link ended.
#[derive(Clone, Copy, Debug, PartialEq, Eq)]
pub enum LinkCause {
    /// The head of a request is none (RFC 9112, sections 2 to 5).
    Head,
    /// A request doesn't say its host once (RFC 9112, section 3.2).
    Host,
    /// The head of a request is too long.
    HeadLong,
    /// How the body ends isn't said (RFC 9112, section 6.3).
    Length,
    /// The body of a request is too long.
    BodyLong,
    /// The body of a request has a coding (RFC 9110, section 8.4).
    Coding,
    /// A request has an expectation that isn't met (RFC 9110, section 10.1.1).
    Expect,
    /// The peer ended within a request.
    Cut,
    /// A read failed, or took too long.
    Link,
    /// A response couldn't be written whole.
    Write,
    /// Out of memory.
    Memory,
}

/// Why a server ended.
#[derive(Clone, Copy, Debug, PartialEq, Eq)]
pub enum EndCause {
    /// As many watches ran as were asked for, or the door is shut.
    Done,
    /// The settings couldn't be read.
    SettingsFailed,
    /// The settings are refused.
    Refused,
    /// A file of the store isn't there.
    NoStore,
    /// The store couldn't be opened, or its disk failed.
    StoreFailed,
    /// A file of the store is no journal.
    Damaged,
    /// The door couldn't be opened, or it failed.
    NetworkFailed,
    /// A link's log and the node's turns differ.
    Disagree,
    /// Out of memory.
    Memory,
}

impl PushCause {
    /// Its word.
    pub fn as_str(self) -> &'static str
        ensures { result.now ≡ spec.push_text self }
    {
        match self {
            PushCause::NoEndpoint => "no_endpoint",
            PushCause::NoGateway => "no_gateway",
            PushCause::Dial => "dial",
            PushCause::Link => "link",
            PushCause::NoResponse => "no_response",
            PushCause::Kept => "kept",
            PushCause::Memory => "memory",
        }
    }
}

impl LinkCause {
    /// The fault by which a link ended, if it ended by one.
    pub fn of(end: LinkEnd) -> Option<LinkCause>
        ensures { result ≡ spec.link_cause end }
    {
        match end {
            LinkEnd::End | LinkEnd::Spent | LinkEnd::Closed => None,
            LinkEnd::Http(fault) => Some(LinkCause::of_request(fault)),
            LinkEnd::Sent(SendFault::Link | SendFault::Stuck) => Some(LinkCause::Write),
            LinkEnd::Sent(SendFault::Memory) | LinkEnd::Memory => Some(LinkCause::Memory),
        }
    }

    // The fault of a request that isn't read.
    fn of_request(fault: HttpFault) -> LinkCause
        ensures { result ≡ spec.request_cause fault }
    {
        match fault {
            HttpFault::Head => LinkCause::Head,
            HttpFault::Host => LinkCause::Host,
            HttpFault::HeadLong => LinkCause::HeadLong,
            HttpFault::Length => LinkCause::Length,
            HttpFault::BodyLong => LinkCause::BodyLong,
            HttpFault::Coding => LinkCause::Coding,
            HttpFault::Expect => LinkCause::Expect,
            HttpFault::Cut => LinkCause::Cut,
            HttpFault::Link => LinkCause::Link,
            HttpFault::Memory => LinkCause::Memory,
        }
    }

    /// Its word.
    pub fn as_str(self) -> &'static str
        ensures { result.now ≡ spec.link_text self }
    {
        match self {
            LinkCause::Head => "head",
            LinkCause::Host => "host",
            LinkCause::HeadLong => "head_long",
            LinkCause::Length => "length",
            LinkCause::BodyLong => "body_long",
            LinkCause::Coding => "coding",
            LinkCause::Expect => "expect",
            LinkCause::Cut => "cut",
            LinkCause::Link => "link",
            LinkCause::Write => "write",
            LinkCause::Memory => "memory",
        }
    }
}

/// The word for how a link ended: that of its fault, where it ended by one.
pub fn end_word(end: LinkEnd) -> &'static str
    ensures { result.now ≡ spec.end_word end }
{
    match end {
        LinkEnd::End => "end",
        LinkEnd::Spent => "spent",
        LinkEnd::Closed => "closed",
        LinkEnd::Http(fault) => LinkCause::of_request(fault).as_str(),
        LinkEnd::Sent(SendFault::Link | SendFault::Stuck) => LinkCause::Write.as_str(),
        LinkEnd::Sent(SendFault::Memory) | LinkEnd::Memory => LinkCause::Memory.as_str(),
    }
}

impl EndCause {
    /// Its words.
    pub fn as_str(self) -> &'static str
        ensures { result.now ≡ spec.end_text self }
    {
        match self {
            EndCause::Done => "done",
            EndCause::SettingsFailed => "settings failed",
            EndCause::Refused => "settings refused",
            EndCause::NoStore => "no store",
            EndCause::Damaged => "damaged",
            EndCause::StoreFailed => "store failed",
            EndCause::NetworkFailed => "network failed",
            EndCause::Disagree => "disagree",
            EndCause::Memory => "memory",
        }
    }
}
