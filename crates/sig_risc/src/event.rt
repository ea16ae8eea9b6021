ghost use Rattle.std.specs.Prelude.{◌≡◌, IfOk};
ghost use Rattle.sig_risc.specs.Events.{type_of};

use crate::RiscType;
use sig_json::{Copied, Memory, Same, Text, copy_optional};
use std::alloc::Global;

/// An event of RISC (RISC 1.0, section 2).
pub enum RiscEvent {
    /// The account's credential has to be changed (section 2.1).
    CredentialChangeRequired,
    /// The account was deleted for good (section 2.2).
    AccountPurged,
    /// The account was disabled (section 2.3).
    AccountDisabled {
        /// Why; any text.
        reason: Option<Text>,
    },
    /// The account was enabled (section 2.4).
    AccountEnabled,
    /// The subject's identifier changed (section 2.5).
    IdentifierChanged {
        /// The new identifier.
        new_value: Option<Text>,
    },
    /// The subject's identifier now belongs to another user (section 2.6).
    IdentifierRecycled,
    /// A credential was compromised (section 2.7).
    CredentialCompromise {
        /// What kind of credential.
        credential_type: Text,
    },
    /// The subject takes part (section 2.8.1).
    OptIn,
    /// The subject began to opt out (section 2.8.2).
    OptOutInitiated,
    /// The subject cancelled opting out (section 2.8.3).
    OptOutCancelled,
    /// The subject has opted out (section 2.8.4).
    OptOutEffective,
    /// A recovery of the account began (section 2.9).
    RecoveryActivated,
    /// The account's recovery information changed (section 2.10).
    RecoveryInformationChanged,
    /// All sessions of the account were revoked (section 2.11).
    SessionsRevoked,
}

impl Drop for RiscEvent {
    fn drop(self) {
        match self {
            RiscEvent::CredentialChangeRequired
            | RiscEvent::AccountPurged
            | RiscEvent::AccountEnabled
            | RiscEvent::IdentifierRecycled
            | RiscEvent::OptIn
            | RiscEvent::OptOutInitiated
            | RiscEvent::OptOutCancelled
            | RiscEvent::OptOutEffective
            | RiscEvent::RecoveryActivated
            | RiscEvent::RecoveryInformationChanged
            | RiscEvent::SessionsRevoked => {}
            RiscEvent::AccountDisabled { reason } => drop(reason),
            RiscEvent::IdentifierChanged { new_value } => drop(new_value),
            RiscEvent::CredentialCompromise { credential_type } => drop(credential_type),
        }
    }
}

impl RiscEvent {
    /// Its type.
    pub fn event_type(&self) -> RiscType
        ensures { result ≡ type_of self.now }
    {
        match self {
            RiscEvent::CredentialChangeRequired => RiscType::CredentialChangeRequired,
            RiscEvent::AccountPurged => RiscType::AccountPurged,
            RiscEvent::AccountDisabled { .. } => RiscType::AccountDisabled,
            RiscEvent::AccountEnabled => RiscType::AccountEnabled,
            RiscEvent::IdentifierChanged { .. } => RiscType::IdentifierChanged,
            RiscEvent::IdentifierRecycled => RiscType::IdentifierRecycled,
            RiscEvent::CredentialCompromise { .. } => RiscType::CredentialCompromise,
            RiscEvent::OptIn => RiscType::OptIn,
            RiscEvent::OptOutInitiated => RiscType::OptOutInitiated,
            RiscEvent::OptOutCancelled => RiscType::OptOutCancelled,
            RiscEvent::OptOutEffective => RiscType::OptOutEffective,
            RiscEvent::RecoveryActivated => RiscType::RecoveryActivated,
            RiscEvent::RecoveryInformationChanged => RiscType::RecoveryInformationChanged,
            RiscEvent::SessionsRevoked => RiscType::SessionsRevoked,
        }
    }

    /// An equal event.
    pub fn copy(&self, alloc: Global) -> Result<RiscEvent, Memory>
        ensures { IfOk result (λ c. c ≡ self.now) }
    {
        Ok(match self {
            RiscEvent::CredentialChangeRequired => RiscEvent::CredentialChangeRequired,
            RiscEvent::AccountPurged => RiscEvent::AccountPurged,
            RiscEvent::AccountDisabled { reason } => RiscEvent::AccountDisabled {
                reason: copy_optional(alloc, reason)?,
            },
            RiscEvent::AccountEnabled => RiscEvent::AccountEnabled,
            RiscEvent::IdentifierChanged { new_value } => RiscEvent::IdentifierChanged {
                new_value: copy_optional(alloc, new_value)?,
            },
            RiscEvent::IdentifierRecycled => RiscEvent::IdentifierRecycled,
            RiscEvent::CredentialCompromise { credential_type } => RiscEvent::CredentialCompromise {
                credential_type: credential_type.copy(alloc)?,
            },
            RiscEvent::OptIn => RiscEvent::OptIn,
            RiscEvent::OptOutInitiated => RiscEvent::OptOutInitiated,
            RiscEvent::OptOutCancelled => RiscEvent::OptOutCancelled,
            RiscEvent::OptOutEffective => RiscEvent::OptOutEffective,
            RiscEvent::RecoveryActivated => RiscEvent::RecoveryActivated,
            RiscEvent::RecoveryInformationChanged => RiscEvent::RecoveryInformationChanged,
            RiscEvent::SessionsRevoked => RiscEvent::SessionsRevoked,
        })
    }
}

impl Copied for RiscEvent {
    fn copied(&self, alloc: Global) -> Result<RiscEvent, Memory> {
        self.copy(alloc)
    }
}

impl Same for RiscEvent {
    fn same(&self, other: &RiscEvent) -> bool {
        match (self, other) {
            (
                RiscEvent::AccountDisabled { reason: one },
                RiscEvent::AccountDisabled { reason: two },
            ) => one.same(two),
            (
                RiscEvent::IdentifierChanged { new_value: one },
                RiscEvent::IdentifierChanged { new_value: two },
            ) => one.same(two),
            (
                RiscEvent::CredentialCompromise {
                    credential_type: one,
                },
                RiscEvent::CredentialCompromise {
                    credential_type: two,
                },
            ) => one.same(two),
            _ => self.event_type().same(&other.event_type()),
        }
    }
}
