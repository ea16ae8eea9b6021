ghost use Rattle.sig_caep.specs.Lists.{initiators, initiator_text};

use sig_json::{Listed, Same};

/// Who brought the event about (CAEP 1.0, section 2).
#[derive(Clone, Copy, PartialEq, Eq)]
pub enum Initiator {
    /// An administrator.
    Admin,
    /// The end user.
    User,
    /// A policy.
    Policy,
    /// A system.
    System,
}

impl Listed for Initiator {
    ghost use Rattle.sig_caep.specs.declared.initiator.Initiator.TheVariants.{Admin};

    ghost values = { initiators };

    ghost text_of = { initiator_text };

    ghost otherwise = { Admin };

    #[tactic(auto, unfolding(crate::specs::Lists::initiators))]
    fn values() -> &'static [Initiator] {
        &[
            Initiator::Admin,
            Initiator::User,
            Initiator::Policy,
            Initiator::System,
        ]
    }

    #[tactic(auto, unfolding(crate::specs::Lists::initiator_text))]
    fn as_str(&self) -> &'static str {
        match self {
            Initiator::Admin => "admin",
            Initiator::User => "user",
            Initiator::Policy => "policy",
            Initiator::System => "system",
        }
    }
}

impl Same for Initiator {
    fn same(&self, other: &Initiator) -> bool {
        self == other
    }
}
