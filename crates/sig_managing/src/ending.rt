ghost use Rattle.std.specs.Prelude.{◌≡◌};
ghost use Rattle.sig_managing.specs.Runs.{of_driven, of_unread};

use crate::{Counts, DriveFault};
use sig_json::Text;
use sig_opening::Unread;

/// How a run of `manage` ended.
#[derive(Drop)]
pub enum ManageEnd {
    /// The client's streams are those that are declared, and so many changes were made.
    Done(Counts),
    /// The settings couldn't be opened, or reading them failed. The outside counted it as a fault of the settings.
    SettingsFailed,
    /// What is at this path of the settings is missing or wrong; it is `length` where there are too many bytes, and `body`
    /// where they spell no JSON object. Nothing was dialled.
    Refused(Text),
    /// A dial or a link failed. The outside counted it as a fault of the network.
    NetworkFailed,
    /// The transmitter gave no answer that can be used, by the place where it is at fault (`DriveFault::Peer`).
    Peer(Text),
    /// The output failed, or took nothing of a piece.
    OutputFailed,
    /// Out of memory. What was changed until then stays.
    Memory,
}

impl ManageEnd {
    /// The end where no settings were read, for this cause.
    pub fn of_unread(cause: Unread) -> ManageEnd
        ensures { result ≡ of_unread cause }
    {
        match cause {
            Unread::Failed => ManageEnd::SettingsFailed,
            Unread::Refused(member) => ManageEnd::Refused(member),
            Unread::Memory => ManageEnd::Memory,
        }
    }

    /// The end where the requests ended so.
    pub fn of_driven(driven: Result<Counts, DriveFault>) -> ManageEnd
        ensures { result ≡ of_driven driven }
    {
        match driven {
            Ok(counts) => ManageEnd::Done(counts),
            Err(DriveFault::Dial | DriveFault::Link) => ManageEnd::NetworkFailed,
            Err(DriveFault::Peer(place)) => ManageEnd::Peer(place),
            Err(DriveFault::Output) => ManageEnd::OutputFailed,
            Err(DriveFault::Memory) => ManageEnd::Memory,
        }
    }
}
