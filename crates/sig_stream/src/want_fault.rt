ghost use Rattle.std.specs.Prelude.{◌≡◌};

use sig_json::{MemoryRefusal, Text};
use thiserror::Error;

/// Why a body says nothing that may be wanted of a stream. The first member that is wrong decides.
#[derive(Debug, Drop, Error)]
pub enum WantFault {
    /// This member is of another kind than it has to be, or too long; it is `body` where the body is no object.
    #[error("a member is of another kind")]
    Member(Text),
    /// The delivery's method is neither that of push (RFC 8935) nor that of poll (RFC 8936).
    #[error("the method is neither push nor poll")]
    Method,
    /// Delivery by push has no URL that spells an endpoint; or one that is too long or has a fragment, or one of `https` where
    /// there is no gateway.
    #[error("the URL spells no endpoint that can be reached")]
    Endpoint,
    /// Out of memory.
    #[error("out of memory")]
    Memory,
}

impl<R: MemoryRefusal> From<R> for WantFault {
    ghost use Rattle.sig_stream.specs.declared.want_fault.WantFault.TheVariants.{Memory};

    ghost from_gives = { λ _ e. e ≡ Memory };

    fn from(_refusal: R) -> WantFault {
        WantFault::Memory
    }
}
