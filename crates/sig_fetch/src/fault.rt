use sig_json::{MemoryRefusal, Text};
use thiserror::Error;

/// Why a fetch ended before its last round. What was taken until then stays.
#[derive(Debug, Drop, Error)]
pub enum FetchFault {
    /// The peer is `https`, and there is no gateway to it. Nothing is dialled.
    #[error("there is no gateway to the peer")]
    NoGateway,
    /// The side failed to dial.
    #[error("the dial failed")]
    Dial,
    /// The link failed, while the poll was written or while the response was read.
    #[error("the link failed")]
    Link,
    /// The peer gave no page: it is `http` where the link gave no response (RFC 9112), `status` where the response has
    /// another status than 200, and else the first member of its body that is wrong (RFC 8936, section 2.5).
    #[error("the peer gave no page")]
    Peer(Text),
    /// The node's disk failed, in this call or in an earlier one, and counted it. The node answers so until it is loaded
    /// again.
    #[error("the disk failed")]
    Store,
    /// The node's journal would end past 2^62 with a token: here.
    #[error("a number would be {0}")]
    Full(u64),
    /// Out of memory.
    #[error("out of memory")]
    Memory,
}

impl<R: MemoryRefusal> From<R> for FetchFault {
    ghost use Rattle.std.specs.Prelude.{◌≡◌};
    ghost use Rattle.sig_fetch.specs.declared.fault.FetchFault.TheVariants as faults;

    ghost from_gives = { λ _ e. e ≡ faults.Memory };

    fn from(_refusal: R) -> FetchFault {
        FetchFault::Memory
    }
}
