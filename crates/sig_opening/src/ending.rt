ghost use Rattle.std.specs.Prelude.{◌≡◌};
ghost use Rattle.sig_opening.specs.Ends.{cause_of, of_unopened, of_unread};

use crate::{Unopened, Unread};
use sig_json::Text;
use sig_logs::Differ;
use sig_notes::EndCause;

/// How the serving of a store ended, be it a transmitter's or a receiver's.
#[derive(Drop)]
pub enum ServeEnd {
    /// As many watches ran as were asked for, or a watch reports that its door is shut.
    Done,
    /// The settings couldn't be opened, or reading them failed, so that no door was opened. The outside counted it as a fault
    /// of the settings.
    SettingsFailed,
    /// What is at this path of the settings is missing or wrong; it is `length` where there are too many bytes, and `body`
    /// where they spell no JSON object. No door was opened, and no file of the store.
    Refused(Text),
    /// A file of the store isn't there. None was made, and the door, which was open, was given back with no watch.
    NoStore,
    /// A file of the store couldn't be opened, or its disk failed, as the store was loaded or in a watch. The outside counted it
    /// as a fault of the stores.
    StoreFailed,
    /// The bytes of a file of the store, 0 for the first and 1 for the second, are no journal at this offset, or the record
    /// whose gate stands there is none that the node takes up. The door, which was open, was given back with no watch.
    Damaged { file: u8, at: u64 },
    /// The door couldn't be opened, and then no file of the store was, or it failed in a watch. The outside counted it as a
    /// fault of the network.
    NetworkFailed,
    /// In the last watch these two values differ, which should be equal: a turn of a link's log and the node's. The node may be
    /// broken too.
    Disagree(Differ),
    /// Out of memory. Fewer watches ran than were asked for.
    Memory,
}

impl ServeEnd {
    /// The cause that the last line on standard error names.
    pub fn cause(&self) -> EndCause
        ensures { result ≡ cause_of self.now }
    {
        match self {
            ServeEnd::Done => EndCause::Done,
            ServeEnd::SettingsFailed => EndCause::SettingsFailed,
            ServeEnd::Refused(_) => EndCause::Refused,
            ServeEnd::NoStore => EndCause::NoStore,
            ServeEnd::StoreFailed => EndCause::StoreFailed,
            ServeEnd::Damaged { .. } => EndCause::Damaged,
            ServeEnd::NetworkFailed => EndCause::NetworkFailed,
            ServeEnd::Disagree(_) => EndCause::Disagree,
            ServeEnd::Memory => EndCause::Memory,
        }
    }

    /// The end where no settings were read, for this cause.
    pub fn of_unread(cause: Unread) -> ServeEnd
        ensures { result ≡ of_unread cause }
    {
        match cause {
            Unread::Failed => ServeEnd::SettingsFailed,
            Unread::Refused(member) => ServeEnd::Refused(member),
            Unread::Memory => ServeEnd::Memory,
        }
    }

    /// The end where no node was loaded, for this cause.
    pub fn of_unopened(cause: Unopened) -> ServeEnd
        ensures { result ≡ of_unopened cause }
    {
        match cause {
            Unopened::Missing => ServeEnd::NoStore,
            Unopened::Failed => ServeEnd::StoreFailed,
            Unopened::Damaged { file, at } => ServeEnd::Damaged { file, at },
            Unopened::Memory => ServeEnd::Memory,
        }
    }
}
