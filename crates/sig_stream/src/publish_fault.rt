ghost use Rattle.std.specs.Prelude.{◌≡◌};

use sig_json::{MemoryRefusal, Text};
use thiserror::Error;

/// Why a body is no publication.
#[derive(Debug, Drop, Error)]
pub enum PublishFault {
    /// The first of `publish_id`, `sub_id` and `events` that is missing or wrong; `body` where the body is no object.
    #[error("a member is missing or wrong")]
    Member(Text),
    /// Out of memory.
    #[error("out of memory")]
    Memory,
}

impl<R: MemoryRefusal> From<R> for PublishFault {
    ghost use Rattle.sig_stream.specs.declared.publish_fault.PublishFault.TheVariants.{Memory};

    ghost from_gives = { λ _ e. e ≡ Memory };

    fn from(_refusal: R) -> PublishFault {
        PublishFault::Memory
    }
}
