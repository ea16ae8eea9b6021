ghost use Rattle.std.specs.Prelude.{◌≡◌};

use sig_json::MemoryRefusal;
use thiserror::Error;

/// Why a store could not be loaded.
#[derive(Clone, Copy, Debug, PartialEq, Eq, Error)]
pub enum LoadFault {
    /// A disk failed, and counted it.
    #[error("the disk failed")]
    Store,
    /// The bytes of a file, 0 for the first and 1 for the second, are no journal at this offset.
    #[error("file {file} is damaged at {at}")]
    Damaged { file: u8, at: u64 },
    /// Out of memory.
    #[error("out of memory")]
    Memory,
}

impl<R: MemoryRefusal> From<R> for LoadFault {
    ghost use Rattle.sig_journal.specs.declared.fault.LoadFault.TheVariants.{Memory};

    ghost from_gives = { λ _ e. e ≡ Memory };

    fn from(_refusal: R) -> LoadFault {
        LoadFault::Memory
    }
}
