ghost use Rattle.std.specs.Prelude.{◌≡◌, IfOk};
ghost use Rattle.serde_json.specs.View.{view, members_view};
ghost use Rattle.sig_json.specs.Payloads.{put_all};
ghost use Rattle.sig_risc.specs.Events.{kept_of, risc_payload, type_of};
ghost use Rattle.sig_risc.specs.Table.{risc_table};

use crate::RiscEvent;
use serde_json::{Map, Value};
use sig_json::{AnyText, Memory, Payload, put_member, put_optional_member};
use std::alloc::Global;

/// The payload of an event: its members by its type's row.
pub fn to_json(alloc: Global, event: &RiscEvent) -> Result<Value, Memory>
    ensures { IfOk result (λ v. view v ≡ risc_payload event.now) }
{
    let mut payload = Map::new(alloc);
    put(alloc, &mut payload, event)?;
    Ok(Value::Object(payload))
}

fn put(alloc: Global, payload: &mut Payload, event: &RiscEvent) -> Result<(), Memory>
    ensures { IfOk result (λ _. members_view payload.new.entries
        ≡ put_all (risc_table (type_of event.now)).rules (kept_of event.now) (members_view payload.old.entries)) }
{
    match event {
        RiscEvent::AccountDisabled { reason } => put_optional_member::<AnyText>(
            alloc, payload, "reason", reason,
        ),
        RiscEvent::IdentifierChanged { new_value } => put_optional_member::<AnyText>(
            alloc,
            payload,
            "new-value",
            new_value,
        ),
        RiscEvent::CredentialCompromise { credential_type } => put_member::<AnyText>(
            alloc,
            payload,
            "credential_type",
            credential_type,
        ),
        RiscEvent::CredentialChangeRequired
        | RiscEvent::AccountPurged
        | RiscEvent::AccountEnabled
        | RiscEvent::IdentifierRecycled
        | RiscEvent::OptIn
        | RiscEvent::OptOutInitiated
        | RiscEvent::OptOutCancelled
        | RiscEvent::OptOutEffective
        | RiscEvent::RecoveryActivated
        | RiscEvent::RecoveryInformationChanged
        | RiscEvent::SessionsRevoked => Ok(()),
    }
}
