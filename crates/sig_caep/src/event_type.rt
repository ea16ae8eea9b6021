ghost use Rattle.sig_caep.specs.Table.{caep_types, type_text};

use sig_json::Listed;

/// A type of event of CAEP (CAEP 1.0, section 3); its text is the last part of its URI.
#[derive(Clone, Copy, PartialEq, Eq)]
pub enum CaepType {
    /// Section 3.1.
    SessionRevoked,
    /// Section 3.2.
    TokenClaimsChange,
    /// Section 3.3.
    CredentialChange,
    /// Section 3.4.
    AssuranceLevelChange,
    /// Section 3.5.
    DeviceComplianceChange,
    /// Section 3.6.
    SessionEstablished,
    /// Section 3.7.
    SessionPresented,
    /// Section 3.8.
    RiskLevelChange,
}

impl Listed for CaepType {
    ghost use Rattle.sig_caep.specs.declared.event_type.CaepType.TheVariants.{SessionRevoked};

    ghost values = { caep_types };

    ghost text_of = { type_text };

    ghost otherwise = { SessionRevoked };

    fn values() -> &'static [CaepType] {
        &[
            CaepType::SessionRevoked,
            CaepType::TokenClaimsChange,
            CaepType::CredentialChange,
            CaepType::AssuranceLevelChange,
            CaepType::DeviceComplianceChange,
            CaepType::SessionEstablished,
            CaepType::SessionPresented,
            CaepType::RiskLevelChange,
        ]
    }

    fn as_str(&self) -> &'static str {
        match self {
            CaepType::SessionRevoked => "session-revoked",
            CaepType::TokenClaimsChange => "token-claims-change",
            CaepType::CredentialChange => "credential-change",
            CaepType::AssuranceLevelChange => "assurance-level-change",
            CaepType::DeviceComplianceChange => "device-compliance-change",
            CaepType::SessionEstablished => "session-established",
            CaepType::SessionPresented => "session-presented",
            CaepType::RiskLevelChange => "risk-level-change",
        }
    }
}
