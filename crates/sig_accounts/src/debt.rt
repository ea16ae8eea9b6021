ghost use Rattle.std.specs.Prelude.{◌≡◌, IfOk};

use sig_event::Status;
use sig_json::{Copied, Memory, Text, copy_optional};
use std::alloc::Global;

/// A token that a stream owes, in small: its claims are computed where it is offered.
#[derive(Drop)]
pub struct Debt {
    /// Its number among the tokens of its stream.
    pub number: u64,
    /// When it was made, in seconds since 1970.
    pub time: u64,
    /// What it says.
    pub said: Said,
}

/// What a token says.
#[derive(Drop)]
pub enum Said {
    /// What was published, by its place among all that was, from 0.
    Published {
        /// The place.
        place: usize,
    },
    /// The stream is verified (OpenID Shared Signals Framework 1.0, section 8.1.4).
    Verified {
        /// What the receiver asked to be sent back.
        state: Option<Text>,
    },
    /// The stream's status was set (OpenID Shared Signals Framework 1.0, section 8.1.5).
    Updated {
        /// The status.
        status: Status,
        /// Why.
        reason: Option<Text>,
    },
}

impl Debt {
    /// An equal one.
    pub fn copy(&self, alloc: Global) -> Result<Debt, Memory>
        ensures { IfOk result (λ d. d ≡ self.now) }
    {
        Ok(Debt {
            number: self.number,
            time: self.time,
            said: self.said.copy(alloc)?,
        })
    }
}

impl Copied for Debt {
    fn copied(&self, alloc: Global) -> Result<Debt, Memory> {
        self.copy(alloc)
    }
}

impl Said {
    /// An equal one.
    pub fn copy(&self, alloc: Global) -> Result<Said, Memory>
        ensures { IfOk result (λ s. s ≡ self.now) }
    {
        Ok(match self {
            Said::Published { place } => Said::Published { place: *place },
            Said::Verified { state } => Said::Verified {
                state: copy_optional(alloc, state)?,
            },
            Said::Updated { status, reason } => Said::Updated {
                status: *status,
                reason: copy_optional(alloc, reason)?,
            },
        })
    }
}

/// A token to be made: when, and what it says.
#[derive(Drop)]
pub struct Notice {
    /// In seconds since 1970.
    pub time: u64,
    /// What it says.
    pub said: Said,
}
