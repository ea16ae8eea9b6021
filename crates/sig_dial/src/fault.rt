use sig_json::MemoryRefusal;
use thiserror::Error;

/// Why a request has no response.
#[derive(Clone, Copy, Debug, PartialEq, Eq, Error)]
pub enum AskFault {
    /// The side failed to dial.
    #[error("the dial failed")]
    Dial,
    /// The link failed, while the request was written or while the response was read.
    #[error("the link failed")]
    Link,
    /// What the link gave is no response (RFC 9112): it ended within one, broke the rules or the limits, sent more than
    /// `INTERIM_RESPONSES` interim ones before it, or changed the protocol (RFC 9110, section 15.2).
    #[error("the link gave no response")]
    NoResponse,
    /// Out of memory.
    #[error("out of memory")]
    Memory,
}

impl<R: MemoryRefusal> From<R> for AskFault {
    ghost use Rattle.std.specs.Prelude.{◌≡◌};
    ghost use Rattle.sig_dial.specs.declared.fault.AskFault.TheVariants as faults;

    ghost from_gives = { λ _ e. e ≡ faults.Memory };

    fn from(_refusal: R) -> AskFault {
        AskFault::Memory
    }
}
