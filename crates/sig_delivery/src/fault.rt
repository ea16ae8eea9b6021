ghost use Rattle.std.specs.Prelude.{◌≡◌};

use sig_json::{MemoryRefusal, Text};
use thiserror::Error;

/// Why a body says nothing. The first member that is wrong decides.
#[derive(Debug, Drop, Error)]
pub enum BodyFault {
    /// This member is missing or of another kind than it has to be; it is `body` where the body is no JSON object.
    #[error("a member is missing or wrong")]
    Bad(Text),
    /// Out of memory.
    #[error("out of memory")]
    Memory,
}

impl<R: MemoryRefusal> From<R> for BodyFault {
    ghost use Rattle.sig_delivery.specs.declared.fault.BodyFault.TheVariants.{Memory};

    ghost from_gives = { λ _ e. e ≡ Memory };

    fn from(_refusal: R) -> BodyFault {
        BodyFault::Memory
    }
}
