ghost use Rattle.std.specs.Prelude.{◌≡◌};

use sig_json::MemoryRefusal;
use thiserror::Error;

/// Why a snapshot was not written.
#[derive(Clone, Copy, Debug, PartialEq, Eq, Error)]
pub enum CheckFault {
    /// The disk failed, and counted it. Load the store again.
    #[error("the disk failed")]
    Store,
    /// The snapshot has this many bytes, 2^32 or more, or the next generation would be this one, past 2^62. Nothing changed.
    #[error("a number would be {0}")]
    Big(u64),
    /// Out of memory. Nothing changed.
    #[error("out of memory")]
    Memory,
}

impl<R: MemoryRefusal> From<R> for CheckFault {
    ghost use Rattle.sig_journal.specs.declared.checkpoint.fault.CheckFault.TheVariants.{Memory};

    ghost from_gives = { λ _ e. e ≡ Memory };

    fn from(_refusal: R) -> CheckFault {
        CheckFault::Memory
    }
}
