use sig_json::MemoryRefusal;
use thiserror::Error;

/// Why a push settles nothing.
#[derive(Clone, Copy, Debug, PartialEq, Eq, Error)]
pub enum PushFault {
    /// The token has no endpoint: its stream is polled. Nothing is dialled.
    #[error("the token has no endpoint")]
    NoEndpoint,
    /// The token's endpoint is `https`, and the rules have no gateway to it. Nothing is dialled.
    #[error("there is no gateway to the endpoint")]
    NoGateway,
    /// The side failed to dial.
    #[error("the dial failed")]
    Dial,
    /// The link failed, while the push was written or while the response was read.
    #[error("the link failed")]
    Link,
    /// What the link gave is no response (RFC 9112): it ended within one, or broke the rules or the limits.
    #[error("the link gave no response")]
    NoResponse,
    /// Out of memory.
    #[error("out of memory")]
    Memory,
}

impl<R: MemoryRefusal> From<R> for PushFault {
    ghost use Rattle.std.specs.Prelude.{◌≡◌};
    ghost use Rattle.sig_push.specs.declared.fault.PushFault.TheVariants as faults;

    ghost from_gives = { λ _ e. e ≡ faults.Memory };

    fn from(_refusal: R) -> PushFault {
        PushFault::Memory
    }
}
