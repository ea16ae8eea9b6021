use sig_json::MemoryRefusal;
use sig_outside::LineFault;

/// Why the cases end before their last line.
#[derive(Clone, Copy, PartialEq, Eq)]
pub enum Fault {
    /// The line is no case.
    Case,
    /// The input failed.
    Input,
    /// The output failed, or takes nothing.
    Output,
    /// Out of memory.
    Memory,
}

impl Fault {
    /// The exit status.
    pub fn status(self) -> u8 {
        match self {
            Fault::Case => 1,
            Fault::Input => 3,
            Fault::Output => 4,
            Fault::Memory => 9,
        }
    }
}

impl<R: MemoryRefusal> From<R> for Fault {
    fn from(_refusal: R) -> Fault {
        Fault::Memory
    }
}

/// The fault of a line that the reader didn't give.
pub fn input_fault(fault: LineFault) -> Fault {
    match fault {
        LineFault::Memory => Fault::Memory,
        LineFault::Failed | LineFault::Endless(_) => Fault::Input,
    }
}
