ghost use Rattle.sig_event.specs.Status.{status_text, statuses};

use sig_json::{Listed, Same};

/// The status of a stream (OpenID Shared Signals Framework 1.0, section 8.1.2).
#[derive(Clone, Copy, PartialEq, Eq)]
pub enum Status {
    /// Events are sent.
    Enabled,
    /// Events are held back.
    Paused,
    /// Events are neither sent nor held.
    Disabled,
}

impl Listed for Status {
    ghost use Rattle.sig_event.specs.declared.status.Status.TheVariants.{Enabled};

    ghost values = { statuses };

    ghost text_of = { status_text };

    ghost otherwise = { Enabled };

    #[tactic(auto, unfolding(crate::specs::Status::statuses))]
    fn values() -> &'static [Status] {
        &[Status::Enabled, Status::Paused, Status::Disabled]
    }

    #[tactic(auto, unfolding(crate::specs::Status::status_text))]
    fn as_str(&self) -> &'static str {
        match self {
            Status::Enabled => "enabled",
            Status::Paused => "paused",
            Status::Disabled => "disabled",
        }
    }
}

impl Same for Status {
    fn same(&self, other: &Status) -> bool {
        self == other
    }
}
