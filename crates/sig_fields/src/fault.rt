ghost use Rattle.std.specs.Prelude.{◌≡◌};

use sig_json::MemoryRefusal;
use thiserror::Error;

/// Why a part isn't read.
#[derive(Clone, Copy, Debug, PartialEq, Eq, Error)]
pub enum PartFault {
    /// The part is cut, or breaks its rule.
    #[error("a part that can't be read")]
    Bad,
    /// Out of memory.
    #[error("out of memory")]
    Memory,
}

impl<R: MemoryRefusal> From<R> for PartFault {
    ghost use Rattle.sig_fields.specs.declared.fault.PartFault.TheVariants.{Memory};

    ghost from_gives = { λ _ e. e ≡ Memory };

    fn from(_refusal: R) -> PartFault {
        PartFault::Memory
    }
}

/// Why bytes are no spelling.
#[derive(Clone, Copy, Debug, PartialEq, Eq, Error)]
pub enum DecodeFault {
    /// The offset of the first part that is cut or breaks its rule; where there is none, that of the first byte after the
    /// last part.
    #[error("bytes that can't be read at {0}")]
    Bad(u64),
    /// Out of memory.
    #[error("out of memory")]
    Memory,
}

impl<R: MemoryRefusal> From<R> for DecodeFault {
    ghost use Rattle.sig_fields.specs.declared.fault.DecodeFault.TheVariants.{Memory};

    ghost from_gives = { λ _ e. e ≡ Memory };

    fn from(_refusal: R) -> DecodeFault {
        DecodeFault::Memory
    }
}
