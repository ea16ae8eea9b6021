ghost use Rattle.std.specs.Prelude.{◌≡◌, IfOk};

use sig_event::Status;
use sig_json::{Copied, Memory, Same, Text};
use std::alloc::Global;

/// How a stream stands: its status, and what it owes.
#[derive(Drop)]
pub struct Standing {
    /// Its name.
    pub stream: Text,
    /// Its status (Shared Signals Framework 1.0, section 8.1.2).
    pub status: Status,
    /// How many tokens it owes.
    pub owed: u64,
    /// When the first token that it owes was made, in seconds since 1970; none where it owes nothing.
    pub oldest: Option<u64>,
    /// How many tokens were made for it.
    pub made: u64,
}

impl Standing {
    /// An equal one.
    pub fn copy(&self, alloc: Global) -> Result<Standing, Memory>
        ensures { IfOk result (λ s. s ≡ self.now) }
    {
        Ok(Standing {
            stream: self.stream.copy(alloc)?,
            status: self.status,
            owed: self.owed,
            oldest: self.oldest,
            made: self.made,
        })
    }
}

impl Copied for Standing {
    fn copied(&self, alloc: Global) -> Result<Standing, Memory> {
        self.copy(alloc)
    }
}

impl Same for Standing {
    fn same(&self, other: &Standing) -> bool {
        self.stream.same(&other.stream)
            && self.status.same(&other.status)
            && self.owed.same(&other.owed)
            && self.oldest.same(&other.oldest)
            && self.made.same(&other.made)
    }
}
