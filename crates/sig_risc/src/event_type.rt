ghost use Rattle.sig_risc.specs.Table.{risc_types, type_text};

use sig_json::{Listed, Same};

/// A type of event of RISC (RISC 1.0, section 2); its text is the last part of its URI.
#[derive(Clone, Copy, PartialEq, Eq)]
pub enum RiscType {
    /// The account's credential has to be changed (section 2.1).
    CredentialChangeRequired,
    /// The account was deleted for good (section 2.2).
    AccountPurged,
    /// The account was disabled (section 2.3).
    AccountDisabled,
    /// The account was enabled (section 2.4).
    AccountEnabled,
    /// The subject's identifier changed (section 2.5).
    IdentifierChanged,
    /// The subject's identifier now belongs to another user (section 2.6).
    IdentifierRecycled,
    /// A credential was compromised (section 2.7).
    CredentialCompromise,
    /// The subject takes part (section 2.8.1).
    OptIn,
    /// The subject began to opt out (section 2.8.2).
    OptOutInitiated,
    /// The subject cancelled opting out (section 2.8.3).
    OptOutCancelled,
    /// The subject has opted out (section 2.8.4).
    OptOutEffective,
    /// A recovery of the account began (section 2.9).
    RecoveryActivated,
    /// The account's recovery information changed (section 2.10).
    RecoveryInformationChanged,
    /// All sessions of the account were revoked (section 2.11).
    SessionsRevoked,
}

impl Listed for RiscType {
    ghost use Rattle.sig_risc.specs.declared.event_type.RiscType.TheVariants.{CredentialChangeRequired};

    ghost values = { risc_types };

    ghost text_of = { type_text };

    ghost otherwise = { CredentialChangeRequired };

    fn values() -> &'static [RiscType] {
        &[
            RiscType::CredentialChangeRequired,
            RiscType::AccountPurged,
            RiscType::AccountDisabled,
            RiscType::AccountEnabled,
            RiscType::IdentifierChanged,
            RiscType::IdentifierRecycled,
            RiscType::CredentialCompromise,
            RiscType::OptIn,
            RiscType::OptOutInitiated,
            RiscType::OptOutCancelled,
            RiscType::OptOutEffective,
            RiscType::RecoveryActivated,
            RiscType::RecoveryInformationChanged,
            RiscType::SessionsRevoked,
        ]
    }

    fn as_str(&self) -> &'static str {
        match self {
            RiscType::CredentialChangeRequired => "account-credential-change-required",
            RiscType::AccountPurged => "account-purged",
            RiscType::AccountDisabled => "account-disabled",
            RiscType::AccountEnabled => "account-enabled",
            RiscType::IdentifierChanged => "identifier-changed",
            RiscType::IdentifierRecycled => "identifier-recycled",
            RiscType::CredentialCompromise => "credential-compromise",
            RiscType::OptIn => "opt-in",
            RiscType::OptOutInitiated => "opt-out-initiated",
            RiscType::OptOutCancelled => "opt-out-cancelled",
            RiscType::OptOutEffective => "opt-out-effective",
            RiscType::RecoveryActivated => "recovery-activated",
            RiscType::RecoveryInformationChanged => "recovery-information-changed",
            RiscType::SessionsRevoked => "sessions-revoked",
        }
    }
}

impl Same for RiscType {
    fn same(&self, other: &RiscType) -> bool {
        self == other
    }
}
