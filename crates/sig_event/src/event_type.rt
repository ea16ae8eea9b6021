ghost use Rattle.std.specs.Prelude.{◌≡◌, Some};
ghost use Rattle.sig_event.specs.Types.{caep_uri_of, event_types, fits_subject, is_about_identifier, is_identifier, is_published, published_types, risc_uri_of, type_of, uri_of_type};

use sig_caep::CaepType;
use sig_json::{Listed, Same, value_named};
use sig_risc::RiscType;
use sig_subject::{Plain, Simple, Subject};

/// A type of event with a payload that is read; its text is its URI.
#[derive(Clone, Copy, PartialEq, Eq)]
pub enum EventType {
    /// A type of CAEP (CAEP 1.0, section 3).
    Caep(CaepType),
    /// A type of RISC (RISC 1.0, section 2).
    Risc(RiscType),
    /// The verification event (OpenID Shared Signals Framework 1.0, section 8.1.4).
    Verification,
    /// The stream updated event (OpenID Shared Signals Framework 1.0, section 8.1.5).
    StreamUpdated,
}

// As many types as CAEP and RISC have; they stand before the two of a stream.
const PUBLISHED: usize = 22;

impl Listed for EventType {
    ghost use Rattle.sig_event.specs.declared.event_type.EventType.TheVariants.{Verification};

    ghost values = { event_types };

    ghost text_of = { uri_of_type };

    ghost otherwise = { Verification };

    #[tactic(auto, unfolding(crate::specs::Types::event_types, crate::specs::Types::published_types))]
    fn values() -> &'static [EventType] {
        &[
            EventType::Caep(CaepType::SessionRevoked),
            EventType::Caep(CaepType::TokenClaimsChange),
            EventType::Caep(CaepType::CredentialChange),
            EventType::Caep(CaepType::AssuranceLevelChange),
            EventType::Caep(CaepType::DeviceComplianceChange),
            EventType::Caep(CaepType::SessionEstablished),
            EventType::Caep(CaepType::SessionPresented),
            EventType::Caep(CaepType::RiskLevelChange),
            EventType::Risc(RiscType::CredentialChangeRequired),
            EventType::Risc(RiscType::AccountPurged),
            EventType::Risc(RiscType::AccountDisabled),
            EventType::Risc(RiscType::AccountEnabled),
            EventType::Risc(RiscType::IdentifierChanged),
            EventType::Risc(RiscType::IdentifierRecycled),
            EventType::Risc(RiscType::CredentialCompromise),
            EventType::Risc(RiscType::OptIn),
            EventType::Risc(RiscType::OptOutInitiated),
            EventType::Risc(RiscType::OptOutCancelled),
            EventType::Risc(RiscType::OptOutEffective),
            EventType::Risc(RiscType::RecoveryActivated),
            EventType::Risc(RiscType::RecoveryInformationChanged),
            EventType::Risc(RiscType::SessionsRevoked),
            EventType::Verification,
            EventType::StreamUpdated,
        ]
    }

    #[tactic(auto, unfolding(crate::specs::Types::uri_of_type))]
    fn as_str(&self) -> &'static str {
        match self {
            EventType::Caep(event_type) => caep_uri(*event_type),
            EventType::Risc(event_type) => risc_uri(*event_type),
            EventType::Verification =>
                "https://schemas.openid.net/secevent/ssf/event-type/verification",
            EventType::StreamUpdated =>
                "https://schemas.openid.net/secevent/ssf/event-type/stream-updated",
        }
    }
}

fn caep_uri(event_type: CaepType) -> &'static str
    ensures { result.now ≡ caep_uri_of event_type }
{
    match event_type {
        CaepType::SessionRevoked =>
            "https://schemas.openid.net/secevent/caep/event-type/session-revoked",
        CaepType::TokenClaimsChange =>
            "https://schemas.openid.net/secevent/caep/event-type/token-claims-change",
        CaepType::CredentialChange =>
            "https://schemas.openid.net/secevent/caep/event-type/credential-change",
        CaepType::AssuranceLevelChange =>
            "https://schemas.openid.net/secevent/caep/event-type/assurance-level-change",
        CaepType::DeviceComplianceChange =>
            "https://schemas.openid.net/secevent/caep/event-type/device-compliance-change",
        CaepType::SessionEstablished =>
            "https://schemas.openid.net/secevent/caep/event-type/session-established",
        CaepType::SessionPresented =>
            "https://schemas.openid.net/secevent/caep/event-type/session-presented",
        CaepType::RiskLevelChange =>
            "https://schemas.openid.net/secevent/caep/event-type/risk-level-change",
    }
}

fn risc_uri(event_type: RiscType) -> &'static str
    ensures { result.now ≡ risc_uri_of event_type }
{
    match event_type {
        RiscType::CredentialChangeRequired =>
            "https://schemas.openid.net/secevent/risc/event-type/account-credential-change-required",
        RiscType::AccountPurged =>
            "https://schemas.openid.net/secevent/risc/event-type/account-purged",
        RiscType::AccountDisabled =>
            "https://schemas.openid.net/secevent/risc/event-type/account-disabled",
        RiscType::AccountEnabled =>
            "https://schemas.openid.net/secevent/risc/event-type/account-enabled",
        RiscType::IdentifierChanged =>
            "https://schemas.openid.net/secevent/risc/event-type/identifier-changed",
        RiscType::IdentifierRecycled =>
            "https://schemas.openid.net/secevent/risc/event-type/identifier-recycled",
        RiscType::CredentialCompromise =>
            "https://schemas.openid.net/secevent/risc/event-type/credential-compromise",
        RiscType::OptIn => "https://schemas.openid.net/secevent/risc/event-type/opt-in",
        RiscType::OptOutInitiated =>
            "https://schemas.openid.net/secevent/risc/event-type/opt-out-initiated",
        RiscType::OptOutCancelled =>
            "https://schemas.openid.net/secevent/risc/event-type/opt-out-cancelled",
        RiscType::OptOutEffective =>
            "https://schemas.openid.net/secevent/risc/event-type/opt-out-effective",
        RiscType::RecoveryActivated =>
            "https://schemas.openid.net/secevent/risc/event-type/recovery-activated",
        RiscType::RecoveryInformationChanged =>
            "https://schemas.openid.net/secevent/risc/event-type/recovery-information-changed",
        RiscType::SessionsRevoked =>
            "https://schemas.openid.net/secevent/risc/event-type/sessions-revoked",
    }
}

impl Same for EventType {
    fn same(&self, other: &EventType) -> bool {
        self == other
    }
}

impl EventType {
    /// The type with this URI. None exactly where no type has it.
    pub fn of_uri(uri: &str) -> Option<EventType>
        ensures { result ≡ type_of uri.now }
    {
        value_named(uri)
    }

    /// The 22 types that a transmitter publishes, in order: those of CAEP and those of RISC.
    #[tactic(auto, unfolding(crate::specs::Types::event_types, crate::specs::Types::published_types))]
    pub fn published() -> &'static [EventType]
        ensures { result.now ≡ published_types }
    {
        &EventType::values()[..PUBLISHED]
    }

    /// Whether a transmitter publishes events of this type: not those of a stream.
    pub fn is_published(self) -> bool
        ensures { result ≡ is_published (Some self) }
    {
        matches!(self, EventType::Caep(_) | EventType::Risc(_))
    }

    /// Whether an event of this type may be about the subject: one about an identifier is about an e-mail address or a
    /// telephone number alone (RISC 1.0, sections 2.5 and 2.6).
    pub fn fits(self, subject: &Subject) -> bool
        ensures { result ≡ fits_subject self subject.now }
    {
        !is_about_identifier(self) || is_identifier(subject)
    }
}

fn is_about_identifier(event_type: EventType) -> bool
    ensures { result ≡ is_about_identifier event_type }
{
    matches!(
        event_type,
        EventType::Risc(RiscType::IdentifierChanged | RiscType::IdentifierRecycled)
    )
}

fn is_identifier(subject: &Subject) -> bool
    ensures { result ≡ is_identifier subject.now }
{
    matches!(
        subject,
        Subject::Simple(Simple::Plain(Plain::Email { .. } | Plain::Phone { .. }))
    )
}
