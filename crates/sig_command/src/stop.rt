ghost use Rattle.std.specs.Prelude.{◌≡◌};

use sig_json::MemoryRefusal;
use thiserror::Error;

/// Why a line ends a command.
#[derive(Clone, Copy, Debug, PartialEq, Eq, Error)]
pub enum Stop {
    /// It is refused: the line of this number, from 1.
    #[error("line {0} is refused")]
    Line(u64),
    /// It needs a number that is too great: this one.
    #[error("{0} is too great a number")]
    Full(u64),
}

/// Why a line wasn't taken.
#[derive(Clone, Copy, Debug, PartialEq, Eq, Error)]
pub enum TellFault {
    /// It ends the command.
    #[error("{0}")]
    Stopped(Stop),
    /// Out of memory.
    #[error("out of memory")]
    Memory,
}

impl<R: MemoryRefusal> From<R> for TellFault {
    ghost use Rattle.sig_command.specs.declared.stop.TellFault.TheVariants as faults;

    ghost from_gives = { λ _ e. e ≡ faults.Memory };

    fn from(_refusal: R) -> TellFault {
        TellFault::Memory
    }
}
