ghost use Rattle.std.specs.Prelude.{◌≡◌, IfOk};
ghost use Rattle.serde_json.specs.View.{members_view};
ghost use Rattle.sig_json.specs.Payloads.{put_all};
ghost use Rattle.sig_caep.specs.Events.{kept_of, type_of};
ghost use Rattle.sig_caep.specs.Table.{caep_table};

use crate::{CaepKind, CaepType, Change, Compliance, Direction, Principal, RiskLevel};
use sig_json::{
    AnyText, FilledObject, Memory, OneOf, Payload, Text, TextOrTexts, put_member,
    put_optional_member,
};
use std::alloc::Global;

impl CaepKind {
    /// Puts the members of its type.
    pub(crate) fn put(&self, alloc: Global, payload: &mut Payload) -> Result<(), Memory>
        ensures { IfOk result (λ _. members_view payload.new.entries
            ≡ put_all (caep_table (type_of self.now)).rules (kept_of self.now) (members_view payload.old.entries)) }
    {
        match self {
            CaepKind::SessionRevoked => Ok(()),
            CaepKind::TokenClaimsChange { claims } => put_member::<FilledObject>(
                alloc, payload, "claims", claims,
            ),
            CaepKind::CredentialChange {
                credential_type,
                change_type,
            } => {
                put_member::<AnyText>(alloc, payload, "credential_type", credential_type)?;
                put_member::<OneOf<Change>>(alloc, payload, "change_type", change_type)
            }
            CaepKind::AssuranceLevelChange {
                namespace,
                current_level,
                change_direction,
            } => put_level_change(alloc, payload, namespace, current_level, change_direction),
            CaepKind::DeviceComplianceChange {
                previous_status,
                current_status,
            } => put_compliance_change(alloc, payload, previous_status, current_status),
            CaepKind::SessionEstablished {
                acr,
                amr,
                ext_id,
                fp_ua,
            } => {
                put_optional_member::<AnyText>(alloc, payload, "acr", acr)?;
                put_optional_member::<TextOrTexts>(alloc, payload, "amr", amr)?;
                put_presented(alloc, payload, ext_id, fp_ua)
            }
            CaepKind::SessionPresented { ext_id, fp_ua } => put_presented(
                alloc, payload, ext_id, fp_ua,
            ),
            CaepKind::RiskLevelChange {
                principal,
                current_level,
                previous_level,
                risk_reason,
            } => put_risk_change(
                alloc,
                payload,
                principal,
                current_level,
                previous_level,
                risk_reason,
            ),
        }
    }
}

fn put_level_change(
    alloc: Global,
    payload: &mut Payload,
    namespace: &Option<Text>,
    current_level: &Text,
    change_direction: &Option<Direction>,
) -> Result<(), Memory>
    ensures { IfOk result (λ _. members_view payload.new.entries
        ≡ put_all (caep_table CaepType.AssuranceLevelChange).rules (kept_of (CaepKind.AssuranceLevelChange namespace.now current_level.now change_direction.now)) (members_view payload.old.entries)) }
{
    put_optional_member::<AnyText>(alloc, payload, "namespace", namespace)?;
    put_member::<AnyText>(alloc, payload, "current_level", current_level)?;
    put_optional_member::<OneOf<Direction>>(alloc, payload, "change_direction", change_direction)
}

fn put_compliance_change(
    alloc: Global,
    payload: &mut Payload,
    previous_status: &Compliance,
    current_status: &Compliance,
) -> Result<(), Memory>
    ensures { IfOk result (λ _. members_view payload.new.entries
        ≡ put_all (caep_table CaepType.DeviceComplianceChange).rules (kept_of (CaepKind.DeviceComplianceChange previous_status.now current_status.now)) (members_view payload.old.entries)) }
{
    put_member::<OneOf<Compliance>>(alloc, payload, "previous_status", previous_status)?;
    put_member::<OneOf<Compliance>>(alloc, payload, "current_status", current_status)
}

fn put_presented(
    alloc: Global,
    payload: &mut Payload,
    ext_id: &Option<Text>,
    fp_ua: &Option<Text>,
) -> Result<(), Memory>
    ensures { IfOk result (λ _. members_view payload.new.entries
        ≡ put_all (caep_table CaepType.SessionPresented).rules (kept_of (CaepKind.SessionPresented ext_id.now fp_ua.now)) (members_view payload.old.entries)) }
{
    put_optional_member::<AnyText>(alloc, payload, "ext_id", ext_id)?;
    put_optional_member::<AnyText>(alloc, payload, "fp_ua", fp_ua)
}

fn put_risk_change(
    alloc: Global,
    payload: &mut Payload,
    principal: &Principal,
    current_level: &RiskLevel,
    previous_level: &Option<RiskLevel>,
    risk_reason: &Option<Text>,
) -> Result<(), Memory>
    ensures { IfOk result (λ _. members_view payload.new.entries
        ≡ put_all (caep_table CaepType.RiskLevelChange).rules (kept_of (CaepKind.RiskLevelChange principal.now current_level.now previous_level.now risk_reason.now)) (members_view payload.old.entries)) }
{
    put_member::<OneOf<Principal>>(alloc, payload, "principal", principal)?;
    put_member::<OneOf<RiskLevel>>(alloc, payload, "current_level", current_level)?;
    put_optional_member::<OneOf<RiskLevel>>(alloc, payload, "previous_level", previous_level)?;
    put_optional_member::<AnyText>(alloc, payload, "risk_reason", risk_reason)
}
