ghost use Rattle.std.specs.Prelude.{◌≡◌};
ghost use Rattle.sig_receiver.specs.Taking.{take_fault};

use sig_json::MemoryRefusal;
use sig_set::{ClaimsFault, Spot};

/// Why a text of the journal that is loaded was not taken.
#[derive(Clone, Copy, Debug, PartialEq, Eq)]
pub enum TakeFault {
    /// It is no token: the first check that fails is at this spot.
    Bad(Spot),
    /// Out of memory.
    Memory,
}

impl TakeFault {
    // Why it gives no claims.
    pub(crate) fn of_claims(fault: ClaimsFault) -> TakeFault
        ensures { result ≡ take_fault fault }
    {
        match fault {
            ClaimsFault::Bad(spot) => TakeFault::Bad(spot),
            ClaimsFault::Memory => TakeFault::Memory,
        }
    }
}

impl<R: MemoryRefusal> From<R> for TakeFault {
    ghost use Rattle.sig_receiver.specs.declared.take_fault.TakeFault.TheVariants.{Memory};

    ghost from_gives = { λ _ e. e ≡ Memory };

    fn from(_refusal: R) -> TakeFault {
        TakeFault::Memory
    }
}
