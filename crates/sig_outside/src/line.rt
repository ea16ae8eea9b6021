ghost use Rattle.std.specs.Prelude.{◌≡◌, IfOk};

use sig_json::{Bytes, Memory, MemoryRefusal};
use std::alloc::Global;
use thiserror::Error;

/// A line of a text, without the LF that ends it and one CR before that.
#[derive(Drop)]
pub enum Line {
    /// The line of this number, from 1, and its bytes.
    Text { number: u64, bytes: Bytes },
    /// The line of this number has more bytes than there was room for. It is passed over.
    Long { number: u64 },
    /// There is no further line.
    End,
}

impl Line {
    /// An equal line.
    pub fn copy(&self, alloc: Global) -> Result<Line, Memory>
        ensures { IfOk result (λ line. line ≡ self.now) }
    {
        Ok(match self {
            Line::Text { number, bytes } => Line::Text {
                number: *number,
                bytes: bytes.copy(alloc)?,
            },
            Line::Long { number } => Line::Long { number: *number },
            Line::End => Line::End,
        })
    }
}

/// Why no line is given.
#[derive(Clone, Copy, Debug, PartialEq, Eq, Error)]
pub enum LineFault {
    /// The source failed, now or in an earlier call of this reader.
    #[error("the input failed")]
    Failed,
    /// A further byte is wanted, and so many were taken: `LAST_NUMBER`.
    #[error("{0} bytes were read, the most that are counted")]
    Endless(u64),
    /// Out of memory, now or in an earlier call of this reader.
    #[error("out of memory")]
    Memory,
}

impl<R: MemoryRefusal> From<R> for LineFault {
    ghost use Rattle.sig_outside.specs.declared.line.LineFault.TheVariants as faults;

    ghost from_gives = { λ _ e. e ≡ faults.Memory };

    fn from(_refusal: R) -> LineFault {
        LineFault::Memory
    }
}
