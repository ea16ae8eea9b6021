ghost use Rattle.std.specs.Prelude.{◌≡◌};
ghost use Rattle.serde_json.specs.View.{view};
ghost use Rattle.sig_json.specs.Answers.{Answers};
ghost use Rattle.sig_json.specs.Checks.{decided, first_failing};
ghost use Rattle.sig_risc.specs.Events.{event_in, risc_checks, risc_of};

use crate::{RiscEvent, RiscType};
use serde_json::Value;
use sig_json::{AnyText, PayloadFault, optional_member, required_member, value_named};
use std::alloc::Global;

/// The event of RISC that a payload says, by the name of its type. None exactly where no type has the name.
///
/// `Missing` comes for a required member that isn't there, and `Kind` for one of another JSON kind. Other members are
/// passed over.
pub fn from_json(
    alloc: Global,
    kind: &str,
    payload: &Value,
) -> Result<Option<RiscEvent>, PayloadFault>
    ensures { Answers PayloadFault.Memory result (risc_of kind.now (view payload.now)) }
{
    match value_named::<RiscType>(kind) {
        Some(event_type) => Ok(Some(RiscEvent::of_type(alloc, event_type, payload)?)),
        None => Ok(None),
    }
}

impl RiscEvent {
    /// The event of this type that a payload says; the faults are those of `from_json`.
    pub fn of_type(
        alloc: Global,
        event_type: RiscType,
        payload: &Value,
    ) -> Result<RiscEvent, PayloadFault>
        ensures { Answers PayloadFault.Memory result
            (decided (first_failing (risc_checks event_type (view payload.now))) (event_in event_type (view payload.now))) }
    {
        match event_type {
            RiscType::CredentialChangeRequired => Ok(RiscEvent::CredentialChangeRequired),
            RiscType::AccountPurged => Ok(RiscEvent::AccountPurged),
            RiscType::AccountDisabled => account_disabled(alloc, payload),
            RiscType::AccountEnabled => Ok(RiscEvent::AccountEnabled),
            RiscType::IdentifierChanged => identifier_changed(alloc, payload),
            RiscType::IdentifierRecycled => Ok(RiscEvent::IdentifierRecycled),
            RiscType::CredentialCompromise => credential_compromise(alloc, payload),
            RiscType::OptIn => Ok(RiscEvent::OptIn),
            RiscType::OptOutInitiated => Ok(RiscEvent::OptOutInitiated),
            RiscType::OptOutCancelled => Ok(RiscEvent::OptOutCancelled),
            RiscType::OptOutEffective => Ok(RiscEvent::OptOutEffective),
            RiscType::RecoveryActivated => Ok(RiscEvent::RecoveryActivated),
            RiscType::RecoveryInformationChanged => Ok(RiscEvent::RecoveryInformationChanged),
            RiscType::SessionsRevoked => Ok(RiscEvent::SessionsRevoked),
        }
    }
}

fn account_disabled(alloc: Global, payload: &Value) -> Result<RiscEvent, PayloadFault>
    ensures { Answers PayloadFault.Memory result
        (decided (first_failing (risc_checks RiscType.AccountDisabled (view payload.now))) (event_in RiscType.AccountDisabled (view payload.now))) }
{
    let reason = optional_member::<AnyText>(alloc, payload, "reason")?;
    Ok(RiscEvent::AccountDisabled { reason })
}

fn identifier_changed(alloc: Global, payload: &Value) -> Result<RiscEvent, PayloadFault>
    ensures { Answers PayloadFault.Memory result
        (decided (first_failing (risc_checks RiscType.IdentifierChanged (view payload.now))) (event_in RiscType.IdentifierChanged (view payload.now))) }
{
    let new_value = optional_member::<AnyText>(alloc, payload, "new-value")?;
    Ok(RiscEvent::IdentifierChanged { new_value })
}

fn credential_compromise(alloc: Global, payload: &Value) -> Result<RiscEvent, PayloadFault>
    ensures { Answers PayloadFault.Memory result
        (decided (first_failing (risc_checks RiscType.CredentialCompromise (view payload.now))) (event_in RiscType.CredentialCompromise (view payload.now))) }
{
    let credential_type = required_member::<AnyText>(alloc, payload, "credential_type")?;
    Ok(RiscEvent::CredentialCompromise { credential_type })
}
