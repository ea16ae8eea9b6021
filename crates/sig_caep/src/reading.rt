ghost use Rattle.std.specs.Prelude.{◌≡◌};
ghost use Rattle.serde_json.specs.View.{view};
ghost use Rattle.sig_json.specs.Answers.{Answers};
ghost use Rattle.sig_json.specs.Checks.{decided, first_failing};
ghost use Rattle.sig_json.specs.Members.{payload_checks};
ghost use Rattle.sig_caep.specs.Events.{kind_in};
ghost use Rattle.sig_caep.specs.Table.{caep_table};

use crate::{CaepKind, CaepType, Change, Compliance, Direction, Principal, RiskLevel};
use serde_json::Value;
use sig_json::{
    AnyText, FilledObject, OneOf, PayloadFault, TextOrTexts, optional_member, required_member,
};
use std::alloc::Global;

#[tactic(auto, using(sig_json::proofs::Decided::none_fails, sig_json::proofs::Decided::value_is, sig_json::proofs::Decided::one_fails, sig_json::proofs::Decided::rest_decides, sig_json::proofs::Decided::part_decides))]
impl CaepKind {
    /// The members of a payload of this type, or the fault of the first one that is wrong.
    pub(crate) fn from_json(
        alloc: Global,
        event_type: CaepType,
        payload: &Value,
    ) -> Result<CaepKind, PayloadFault>
        ensures { Answers PayloadFault.Memory result
            (decided (first_failing (payload_checks (caep_table event_type).rules (view payload.now))) (kind_in event_type (view payload.now))) }
    {
        match event_type {
            CaepType::SessionRevoked => Ok(CaepKind::SessionRevoked),
            CaepType::TokenClaimsChange => CaepKind::token_claims_change(alloc, payload),
            CaepType::CredentialChange => CaepKind::credential_change(alloc, payload),
            CaepType::AssuranceLevelChange => CaepKind::assurance_level_change(alloc, payload),
            CaepType::DeviceComplianceChange => CaepKind::device_compliance_change(alloc, payload),
            CaepType::SessionEstablished => CaepKind::session_established(alloc, payload),
            CaepType::SessionPresented => CaepKind::session_presented(alloc, payload),
            CaepType::RiskLevelChange => CaepKind::risk_level_change(alloc, payload),
        }
    }

    fn token_claims_change(alloc: Global, payload: &Value) -> Result<CaepKind, PayloadFault>
        ensures { Answers PayloadFault.Memory result
            (decided (first_failing (payload_checks (caep_table CaepType.TokenClaimsChange).rules (view payload.now))) (kind_in CaepType.TokenClaimsChange (view payload.now))) }
    {
        let claims = required_member::<FilledObject>(alloc, payload, "claims")?;
        Ok(CaepKind::TokenClaimsChange { claims })
    }

    fn credential_change(alloc: Global, payload: &Value) -> Result<CaepKind, PayloadFault>
        ensures { Answers PayloadFault.Memory result
            (decided (first_failing (payload_checks (caep_table CaepType.CredentialChange).rules (view payload.now))) (kind_in CaepType.CredentialChange (view payload.now))) }
    {
        let credential_type = required_member::<AnyText>(alloc, payload, "credential_type")?;
        let change_type = required_member::<OneOf<Change>>(alloc, payload, "change_type")?;
        Ok(CaepKind::CredentialChange {
            credential_type,
            change_type,
        })
    }

    fn assurance_level_change(alloc: Global, payload: &Value) -> Result<CaepKind, PayloadFault>
        ensures { Answers PayloadFault.Memory result
            (decided (first_failing (payload_checks (caep_table CaepType.AssuranceLevelChange).rules (view payload.now))) (kind_in CaepType.AssuranceLevelChange (view payload.now))) }
    {
        let namespace = optional_member::<AnyText>(alloc, payload, "namespace")?;
        let current_level = required_member::<AnyText>(alloc, payload, "current_level")?;
        let direction = optional_member::<OneOf<Direction>>(alloc, payload, "change_direction")?;
        Ok(CaepKind::AssuranceLevelChange {
            namespace,
            current_level,
            change_direction: direction,
        })
    }

    fn device_compliance_change(alloc: Global, payload: &Value) -> Result<CaepKind, PayloadFault>
        ensures { Answers PayloadFault.Memory result
            (decided (first_failing (payload_checks (caep_table CaepType.DeviceComplianceChange).rules (view payload.now))) (kind_in CaepType.DeviceComplianceChange (view payload.now))) }
    {
        let previous_status = required_member::<OneOf<Compliance>>(
            alloc,
            payload,
            "previous_status",
        )?;
        let current_status = required_member::<OneOf<Compliance>>(
            alloc,
            payload,
            "current_status",
        )?;
        Ok(CaepKind::DeviceComplianceChange {
            previous_status,
            current_status,
        })
    }

    fn session_established(alloc: Global, payload: &Value) -> Result<CaepKind, PayloadFault>
        ensures { Answers PayloadFault.Memory result
            (decided (first_failing (payload_checks (caep_table CaepType.SessionEstablished).rules (view payload.now))) (kind_in CaepType.SessionEstablished (view payload.now))) }
    {
        let acr = optional_member::<AnyText>(alloc, payload, "acr")?;
        let amr = optional_member::<TextOrTexts>(alloc, payload, "amr")?;
        let ext_id = optional_member::<AnyText>(alloc, payload, "ext_id")?;
        let fp_ua = optional_member::<AnyText>(alloc, payload, "fp_ua")?;
        Ok(CaepKind::SessionEstablished {
            acr,
            amr,
            ext_id,
            fp_ua,
        })
    }

    fn session_presented(alloc: Global, payload: &Value) -> Result<CaepKind, PayloadFault>
        ensures { Answers PayloadFault.Memory result
            (decided (first_failing (payload_checks (caep_table CaepType.SessionPresented).rules (view payload.now))) (kind_in CaepType.SessionPresented (view payload.now))) }
    {
        let ext_id = optional_member::<AnyText>(alloc, payload, "ext_id")?;
        let fp_ua = optional_member::<AnyText>(alloc, payload, "fp_ua")?;
        Ok(CaepKind::SessionPresented { ext_id, fp_ua })
    }

    fn risk_level_change(alloc: Global, payload: &Value) -> Result<CaepKind, PayloadFault>
        ensures { Answers PayloadFault.Memory result
            (decided (first_failing (payload_checks (caep_table CaepType.RiskLevelChange).rules (view payload.now))) (kind_in CaepType.RiskLevelChange (view payload.now))) }
    {
        let principal = required_member::<OneOf<Principal>>(alloc, payload, "principal")?;
        let current_level = required_member::<OneOf<RiskLevel>>(alloc, payload, "current_level")?;
        let previous_level = optional_member::<OneOf<RiskLevel>>(alloc, payload, "previous_level")?;
        let risk_reason = optional_member::<AnyText>(alloc, payload, "risk_reason")?;
        Ok(CaepKind::RiskLevelChange {
            principal,
            current_level,
            previous_level,
            risk_reason,
        })
    }
}
