ghost use Rattle.std.specs.Prelude.{◌≡◌};

use sig_json::MemoryRefusal;
use thiserror::Error;

/// Why a call wasn't answered.
#[derive(Clone, Copy, Debug, PartialEq, Eq, Error)]
pub enum PrepareFault {
    /// A stream or a token would get this number, which is above 2^62.
    #[error("number {0} is above 2^62")]
    Number(u64),
    /// Out of memory.
    #[error("out of memory")]
    Memory,
}

impl<R: MemoryRefusal> From<R> for PrepareFault {
    ghost use Rattle.sig_terms.specs.declared.fault.PrepareFault.TheVariants.{Memory};

    ghost from_gives = { λ _ e. e ≡ Memory };

    fn from(_refusal: R) -> PrepareFault {
        PrepareFault::Memory
    }
}
