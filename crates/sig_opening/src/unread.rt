ghost use Rattle.std.specs.Prelude.{◌≡◌};
ghost use Rattle.sig_opening.specs.Settings.{of_read, of_settings};

use crate::ReadFault;
use sig_json::Text;
use sig_settings::SettingsFault;

/// Why no settings were read.
#[derive(Debug, Drop)]
pub enum Unread {
    /// They couldn't be opened, or reading them failed. The outside counted it as a fault of the settings.
    Failed,
    /// What is at this path is missing or wrong; it is `length` where there are too many bytes, and `body` where they spell no
    /// JSON object.
    Refused(Text),
    /// Out of memory.
    Memory,
}

impl Unread {
    /// Where their bytes weren't read, for this fault.
    pub fn of_read(fault: ReadFault) -> Unread
        ensures { result ≡ of_read fault }
    {
        match fault {
            ReadFault::Failed => Unread::Failed,
            ReadFault::Memory => Unread::Memory,
        }
    }

    /// Where their bytes are refused, for this fault.
    pub fn of_settings(fault: SettingsFault) -> Unread
        ensures { result ≡ of_settings fault }
    {
        match fault {
            SettingsFault::Refused(member) => Unread::Refused(member),
            SettingsFault::Memory => Unread::Memory,
        }
    }
}
