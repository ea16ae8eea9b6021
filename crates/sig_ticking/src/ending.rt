ghost use Rattle.std.specs.Prelude.{◌≡◌};
ghost use Rattle.sig_ticking.specs.Ends.{of_fault, of_line, of_unopened, of_unread};

use sig_journal::NodeFault;
use sig_json::Text;
use sig_opening::{Unopened, Unread};
use sig_outside::LineFault;

/// How a run of `courier` ended.
#[derive(Drop)]
pub enum CourierEnd {
    /// The input was read to its end, with one tick a line, and what they attempted is written.
    Done,
    /// The settings couldn't be opened, or reading them failed. The outside counted it as a fault of the settings.
    SettingsFailed,
    /// What is at this path of the settings is missing or wrong; it is `length` where there are too many bytes, and `body`
    /// where they spell no JSON object. No file of the store was opened.
    Refused(Text),
    /// A file of the store isn't there. None was made, and no line was read.
    NoStore,
    /// A file of the store couldn't be opened, or its disk failed. The outside counted it as a fault of the stores.
    StoreFailed,
    /// The bytes of a file of the store, 0 for the first and 1 for the second, are no journal at this offset, or the record
    /// whose gate stands there is none that a transmitter takes up. No line was read.
    Damaged { file: u8, at: u64 },
    /// The input failed.
    InputFailed,
    /// The output failed, or took nothing of a piece.
    OutputFailed,
    /// The journal would end past 2^62 with what a tick settles: here.
    Full(u64),
    /// So many bytes of the input were read, the most that are counted.
    Endless(u64),
    /// Out of memory. What was settled until then stays.
    Memory,
}

impl CourierEnd {
    /// The end where no settings were read, for this cause.
    pub fn of_unread(cause: Unread) -> CourierEnd
        ensures { result ≡ of_unread cause }
    {
        match cause {
            Unread::Failed => CourierEnd::SettingsFailed,
            Unread::Refused(member) => CourierEnd::Refused(member),
            Unread::Memory => CourierEnd::Memory,
        }
    }

    /// The end where no node was loaded, for this cause.
    pub fn of_unopened(cause: Unopened) -> CourierEnd
        ensures { result ≡ of_unopened cause }
    {
        match cause {
            Unopened::Missing => CourierEnd::NoStore,
            Unopened::Failed => CourierEnd::StoreFailed,
            Unopened::Damaged { file, at } => CourierEnd::Damaged { file, at },
            Unopened::Memory => CourierEnd::Memory,
        }
    }

    /// The end where no line is given, for this fault of their reader.
    pub fn of_line(fault: LineFault) -> CourierEnd
        ensures { result ≡ of_line fault }
    {
        match fault {
            LineFault::Failed => CourierEnd::InputFailed,
            LineFault::Endless(read) => CourierEnd::Endless(read),
            LineFault::Memory => CourierEnd::Memory,
        }
    }

    /// The end where a tick ended with this fault.
    pub fn of_fault(fault: NodeFault) -> CourierEnd
        ensures { result ≡ of_fault fault }
    {
        match fault {
            NodeFault::Store => CourierEnd::StoreFailed,
            NodeFault::Full(end) => CourierEnd::Full(end),
            NodeFault::Memory => CourierEnd::Memory,
        }
    }
}
