ghost use Rattle.sig_caep.specs.Lists.{changes, change_text};

use sig_json::{Listed, Same};

/// What was done to a credential (CAEP 1.0, section 3.3).
#[derive(Clone, Copy, PartialEq, Eq)]
pub enum Change {
    /// The credential was made.
    Create,
    /// The credential was revoked.
    Revoke,
    /// The credential was updated.
    Update,
    /// The credential was deleted.
    Delete,
}

impl Listed for Change {
    ghost use Rattle.sig_caep.specs.declared.change.Change.TheVariants.{Create};

    ghost values = { changes };

    ghost text_of = { change_text };

    ghost otherwise = { Create };

    #[tactic(auto, unfolding(crate::specs::Lists::changes))]
    fn values() -> &'static [Change] {
        &[
            Change::Create,
            Change::Revoke,
            Change::Update,
            Change::Delete,
        ]
    }

    #[tactic(auto, unfolding(crate::specs::Lists::change_text))]
    fn as_str(&self) -> &'static str {
        match self {
            Change::Create => "create",
            Change::Revoke => "revoke",
            Change::Update => "update",
            Change::Delete => "delete",
        }
    }
}

impl Same for Change {
    fn same(&self, other: &Change) -> bool {
        self == other
    }
}
