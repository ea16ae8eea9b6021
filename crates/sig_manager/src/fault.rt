use sig_json::{MemoryRefusal, Text};
use thiserror::Error;

/// Why a response isn't taken. What is left to ask is as before.
#[derive(Debug, Drop, Error)]
pub enum ManageFault {
    /// The transmitter answered otherwise than the standard says: it is `status` where the response has another status than the
    /// request asks for, `body` where its body isn't the object or the list that it has to be, and else the member that is
    /// missing or wrong.
    #[error("the peer gave no answer to what was asked")]
    Peer(Text),
    /// Out of memory.
    #[error("out of memory")]
    Memory,
}

impl<R: MemoryRefusal> From<R> for ManageFault {
    ghost use Rattle.std.specs.Prelude.{◌≡◌};
    ghost use Rattle.sig_manager.specs.declared.fault.ManageFault.TheVariants as faults;

    ghost from_gives = { λ _ e. e ≡ faults.Memory };

    fn from(_refusal: R) -> ManageFault {
        ManageFault::Memory
    }
}
