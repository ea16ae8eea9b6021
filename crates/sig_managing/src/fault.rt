use sig_json::{MemoryRefusal, Text};
use thiserror::Error;

/// Why the streams aren't all as they are declared. What was changed until then stays, and a further run goes on from there.
#[derive(Debug, Drop, Error)]
pub enum DriveFault {
    /// The side failed to dial.
    #[error("the dial failed")]
    Dial,
    /// The link failed, while a request was written or while its response was read.
    #[error("the link failed")]
    Link,
    /// The transmitter gave no answer that can be used: it is `http` where the link gave no response (RFC 9112), `status` where
    /// the response has a status that the request isn't answered with, and else the first member of its body that is wrong, or
    /// `body` (OpenID Shared Signals Framework 1.0, sections 8.1.1 and 8.1.2).
    #[error("the transmitter gave no answer that can be used")]
    Peer(Text),
    /// The output failed, or took nothing of a piece, at the line of a change that was made.
    #[error("the output stopped")]
    Output,
    /// Out of memory.
    #[error("out of memory")]
    Memory,
}

impl<R: MemoryRefusal> From<R> for DriveFault {
    ghost use Rattle.std.specs.Prelude.{◌≡◌};
    ghost use Rattle.sig_managing.specs.declared.fault.DriveFault.TheVariants as faults;

    ghost from_gives = { λ _ e. e ≡ faults.Memory };

    fn from(_refusal: R) -> DriveFault {
        DriveFault::Memory
    }
}
