ghost use Rattle.std.specs.Prelude.{◌≡◌, ◌↔◌, IfOk, IsTrue};
ghost use Rattle.sig_caep.specs.Events.{type_of};

use crate::{CaepType, Change, Compliance, Direction, Principal, RiskLevel};
use sig_json::{Copied, Memory, Same, Text, copy_optional};
use std::alloc::Global;

/// An event of CAEP by its type, without the members that every type may have.
pub enum CaepKind {
    /// The session was revoked (CAEP 1.0, section 3.1).
    SessionRevoked,
    /// Claims of a token changed (section 3.2).
    TokenClaimsChange {
        /// The new claims, an object with at least one member, as canonical JSON text.
        claims: Text,
    },
    /// A credential changed (section 3.3).
    CredentialChange {
        /// What kind of credential.
        credential_type: Text,
        /// What was done to it.
        change_type: Change,
    },
    /// The assurance level changed (section 3.4).
    AssuranceLevelChange {
        /// Where the levels come from.
        namespace: Option<Text>,
        /// The level now.
        current_level: Text,
        /// How it changed.
        change_direction: Option<Direction>,
    },
    /// A device's compliance changed (section 3.5).
    DeviceComplianceChange {
        /// Before the event.
        previous_status: Compliance,
        /// After the event.
        current_status: Compliance,
    },
    /// A session was established (section 3.6).
    SessionEstablished {
        /// The authentication context class.
        acr: Option<Text>,
        /// The authentication methods, a text or a list of texts, as canonical JSON text.
        amr: Option<Text>,
        /// The external identifier of the session.
        ext_id: Option<Text>,
        /// The fingerprint of the user agent.
        fp_ua: Option<Text>,
    },
    /// A session was seen at the transmitter (section 3.7).
    SessionPresented {
        /// The external identifier of the session.
        ext_id: Option<Text>,
        /// The fingerprint of the user agent.
        fp_ua: Option<Text>,
    },
    /// The risk level of a principal changed (section 3.8).
    RiskLevelChange {
        /// Whose level.
        principal: Principal,
        /// The level now.
        current_level: RiskLevel,
        /// The level before the event.
        previous_level: Option<RiskLevel>,
        /// Why it changed.
        risk_reason: Option<Text>,
    },
}

impl Drop for CaepKind {
    fn drop(self) {
        match self {
            CaepKind::SessionRevoked
            | CaepKind::DeviceComplianceChange {
                previous_status: _,
                current_status: _,
            } => {}
            CaepKind::TokenClaimsChange { claims } => drop(claims),
            CaepKind::CredentialChange {
                credential_type,
                change_type: _,
            } => drop(credential_type),
            CaepKind::AssuranceLevelChange {
                namespace,
                current_level,
                change_direction: _,
            } => {
                drop(namespace);
                drop(current_level);
            }
            CaepKind::SessionEstablished {
                acr,
                amr,
                ext_id,
                fp_ua,
            } => {
                drop(acr);
                drop(amr);
                drop(ext_id);
                drop(fp_ua);
            }
            CaepKind::SessionPresented { ext_id, fp_ua } => {
                drop(ext_id);
                drop(fp_ua);
            }
            CaepKind::RiskLevelChange {
                principal: _,
                current_level: _,
                previous_level: _,
                risk_reason,
            } => drop(risk_reason),
        }
    }
}

impl CaepKind {
    /// Its type.
    pub fn event_type(&self) -> CaepType
        ensures { result ≡ type_of self.now }
    {
        match self {
            CaepKind::SessionRevoked => CaepType::SessionRevoked,
            CaepKind::TokenClaimsChange { .. } => CaepType::TokenClaimsChange,
            CaepKind::CredentialChange { .. } => CaepType::CredentialChange,
            CaepKind::AssuranceLevelChange { .. } => CaepType::AssuranceLevelChange,
            CaepKind::DeviceComplianceChange { .. } => CaepType::DeviceComplianceChange,
            CaepKind::SessionEstablished { .. } => CaepType::SessionEstablished,
            CaepKind::SessionPresented { .. } => CaepType::SessionPresented,
            CaepKind::RiskLevelChange { .. } => CaepType::RiskLevelChange,
        }
    }

    /// An equal event.
    pub fn copy(&self, alloc: Global) -> Result<CaepKind, Memory>
        ensures { IfOk result (λ c. c ≡ self.now) }
    {
        Ok(match self {
            CaepKind::SessionRevoked => CaepKind::SessionRevoked,
            CaepKind::TokenClaimsChange { claims } => CaepKind::TokenClaimsChange {
                claims: claims.copy(alloc)?,
            },
            CaepKind::CredentialChange {
                credential_type,
                change_type,
            } => CaepKind::CredentialChange {
                credential_type: credential_type.copy(alloc)?,
                change_type: *change_type,
            },
            CaepKind::AssuranceLevelChange {
                namespace,
                current_level,
                change_direction,
            } => copy_level_change(alloc, namespace, current_level, *change_direction)?,
            CaepKind::DeviceComplianceChange {
                previous_status,
                current_status,
            } => CaepKind::DeviceComplianceChange {
                previous_status: *previous_status,
                current_status: *current_status,
            },
            CaepKind::SessionEstablished {
                acr,
                amr,
                ext_id,
                fp_ua,
            } => copy_established(alloc, acr, amr, ext_id, fp_ua)?,
            CaepKind::SessionPresented { ext_id, fp_ua } => CaepKind::SessionPresented {
                ext_id: copy_optional(alloc, ext_id)?,
                fp_ua: copy_optional(alloc, fp_ua)?,
            },
            CaepKind::RiskLevelChange {
                principal,
                current_level,
                previous_level,
                risk_reason,
            } => CaepKind::RiskLevelChange {
                principal: *principal,
                current_level: *current_level,
                previous_level: *previous_level,
                risk_reason: copy_optional(alloc, risk_reason)?,
            },
        })
    }
}

fn copy_level_change(
    alloc: Global,
    namespace: &Option<Text>,
    current_level: &Text,
    change_direction: Option<Direction>,
) -> Result<CaepKind, Memory>
    ensures { IfOk result (λ c. c ≡ CaepKind.AssuranceLevelChange namespace.now current_level.now change_direction) }
{
    Ok(CaepKind::AssuranceLevelChange {
        namespace: copy_optional(alloc, namespace)?,
        current_level: current_level.copy(alloc)?,
        change_direction,
    })
}

fn copy_established(
    alloc: Global,
    acr: &Option<Text>,
    amr: &Option<Text>,
    ext_id: &Option<Text>,
    fp_ua: &Option<Text>,
) -> Result<CaepKind, Memory>
    ensures { IfOk result (λ c. c ≡ CaepKind.SessionEstablished acr.now amr.now ext_id.now fp_ua.now) }
{
    Ok(CaepKind::SessionEstablished {
        acr: copy_optional(alloc, acr)?,
        amr: copy_optional(alloc, amr)?,
        ext_id: copy_optional(alloc, ext_id)?,
        fp_ua: copy_optional(alloc, fp_ua)?,
    })
}

impl Copied for CaepKind {
    fn copied(&self, alloc: Global) -> Result<CaepKind, Memory> {
        self.copy(alloc)
    }
}

impl Same for CaepKind {
    fn same(&self, other: &CaepKind) -> bool {
        match self {
            CaepKind::SessionRevoked => matches!(other, CaepKind::SessionRevoked),
            CaepKind::TokenClaimsChange { claims } => other.is_token_claims_change(claims),
            CaepKind::CredentialChange {
                credential_type,
                change_type,
            } => other.is_credential_change(credential_type, *change_type),
            CaepKind::AssuranceLevelChange {
                namespace,
                current_level,
                change_direction,
            } => other.is_assurance_level_change(namespace, current_level, *change_direction),
            CaepKind::DeviceComplianceChange {
                previous_status,
                current_status,
            } => other.is_device_compliance_change(*previous_status, *current_status),
            CaepKind::SessionEstablished {
                acr,
                amr,
                ext_id,
                fp_ua,
            } => other.is_session_established(acr, amr, ext_id, fp_ua),
            CaepKind::SessionPresented { ext_id, fp_ua } => other.is_session_presented(
                ext_id, fp_ua,
            ),
            CaepKind::RiskLevelChange {
                principal,
                current_level,
                previous_level,
                risk_reason,
            } => other.is_risk_level_change(
                *principal,
                *current_level,
                *previous_level,
                risk_reason,
            ),
        }
    }
}

// Whether the event is of this type and has these members.
impl CaepKind {
    fn is_token_claims_change(&self, new: &Text) -> bool
        ensures { IsTrue result ↔ (self.now ≡ CaepKind.TokenClaimsChange new.now) }
    {
        matches!(self, CaepKind::TokenClaimsChange { claims } if claims.same(new))
    }

    fn is_credential_change(&self, credential: &Text, change: Change) -> bool
        ensures { IsTrue result ↔ (self.now ≡ CaepKind.CredentialChange credential.now change) }
    {
        match self {
            CaepKind::CredentialChange {
                credential_type,
                change_type,
            } => credential_type.same(credential) && change_type.same(&change),
            _ => false,
        }
    }

    fn is_assurance_level_change(
        &self,
        names: &Option<Text>,
        level: &Text,
        direction: Option<Direction>,
    ) -> bool
        ensures { IsTrue result ↔ (self.now ≡ CaepKind.AssuranceLevelChange names.now level.now direction) }
    {
        match self {
            CaepKind::AssuranceLevelChange {
                namespace,
                current_level,
                change_direction,
            } => {
                namespace.same(names)
                    && current_level.same(level)
                    && change_direction.same(&direction)
            }
            _ => false,
        }
    }

    fn is_device_compliance_change(&self, before: Compliance, after: Compliance) -> bool
        ensures { IsTrue result ↔ (self.now ≡ CaepKind.DeviceComplianceChange before after) }
    {
        match self {
            CaepKind::DeviceComplianceChange {
                previous_status,
                current_status,
            } => previous_status.same(&before) && current_status.same(&after),
            _ => false,
        }
    }

    fn is_session_established(
        &self,
        class: &Option<Text>,
        methods: &Option<Text>,
        session: &Option<Text>,
        agent: &Option<Text>,
    ) -> bool
        ensures { IsTrue result ↔ (self.now ≡ CaepKind.SessionEstablished class.now methods.now session.now agent.now) }
    {
        match self {
            CaepKind::SessionEstablished {
                acr,
                amr,
                ext_id,
                fp_ua,
            } => {
                acr.same(class) && amr.same(methods) && ext_id.same(session) && fp_ua.same(agent)
            }
            _ => false,
        }
    }

    fn is_session_presented(&self, session: &Option<Text>, agent: &Option<Text>) -> bool
        ensures { IsTrue result ↔ (self.now ≡ CaepKind.SessionPresented session.now agent.now) }
    {
        match self {
            CaepKind::SessionPresented { ext_id, fp_ua } => {
                ext_id.same(session) && fp_ua.same(agent)
            }
            _ => false,
        }
    }

    fn is_risk_level_change(
        &self,
        whose: Principal,
        now: RiskLevel,
        before: Option<RiskLevel>,
        why: &Option<Text>,
    ) -> bool
        ensures { IsTrue result ↔ (self.now ≡ CaepKind.RiskLevelChange whose now before why.now) }
    {
        match self {
            CaepKind::RiskLevelChange {
                principal,
                current_level,
                previous_level,
                risk_reason,
            } => {
                principal.same(&whose)
                    && current_level.same(&now)
                    && previous_level.same(&before)
                    && risk_reason.same(why)
            }
            _ => false,
        }
    }
}
