ghost use Rattle.std.specs.Prelude.{◌≡◌};

use crate::{Stop, TellFault};

/// How a command over the lines of its input ends. Each ending comes by its cause.
#[derive(Clone, Copy, PartialEq, Eq)]
pub enum LinesEnd {
    /// The input was read to its end, and everything is written.
    Done,
    /// A line stopped the command; or `Stop::Full` where so many bytes were read, the most that are counted.
    Stopped(Stop),
    /// The input failed.
    Input,
    /// The output failed, or took nothing of a piece.
    Output,
    /// Out of memory.
    Memory,
}

impl From<TellFault> for LinesEnd {
    ghost use Rattle.sig_command.specs.Telling.{ending_with};

    ghost from_gives = { λ fault end. end ≡ ending_with fault };

    fn from(fault: TellFault) -> LinesEnd {
        match fault {
            TellFault::Stopped(stop) => LinesEnd::Stopped(stop),
            TellFault::Memory => LinesEnd::Memory,
        }
    }
}
