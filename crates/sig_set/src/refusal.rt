ghost use Rattle.std.specs.Prelude.{◌≡◌};
ghost use Rattle.sig_set.specs.Spelled.{code_text, spot_text};

use sig_json::MemoryRefusal;

/// Why a token is refused (RFC 8935, section 2.4).
#[derive(Clone, Copy, Debug, PartialEq, Eq)]
pub enum Code {
    /// The token isn't one of this profile.
    InvalidRequest,
    /// No key that may have signed it did.
    InvalidKey,
    /// Its issuer isn't known.
    InvalidIssuer,
    /// It is for another audience.
    InvalidAudience,
    /// It comes with no bearer that is known.
    AuthenticationFailed,
    /// Who brings it may not speak for its issuer.
    AccessDenied,
}

/// The part of a token at which its judgement ended.
#[derive(Clone, Copy, Debug, PartialEq, Eq)]
pub enum Spot {
    /// The bearer that it comes with.
    Bearer,
    /// Its length.
    Length,
    /// The compact form.
    Compact,
    /// The header as JSON.
    Header,
    /// The header's `typ`.
    Typ,
    /// The header's `crit`.
    Crit,
    /// The payload as JSON.
    Payload,
    /// The payload's `iss`.
    Iss,
    /// The header's `alg`.
    Alg,
    /// The header's `kid`.
    Kid,
    /// The MAC.
    Mac,
    /// The payload's `aud`.
    Aud,
    /// The payload's `jti`.
    Jti,
    /// The payload's `iat`.
    Iat,
    /// The payload's `exp`.
    Exp,
    /// The payload's `sub`.
    Sub,
    /// The payload's `sub_id`.
    SubId,
    /// The payload's `events`.
    Events,
    /// One of the events.
    Event,
}

/// A refused judgement.
#[derive(Clone, Copy, Debug, PartialEq, Eq)]
pub enum Refusal {
    /// The token is refused, exactly by the first check that fails.
    Coded {
        /// Why.
        code: Code,
        /// Where.
        spot: Spot,
    },
    /// Out of memory.
    Memory,
}

impl Code {
    /// Its text.
    pub fn as_str(self) -> &'static str
        ensures { result.now ≡ code_text self }
    {
        match self {
            Code::InvalidRequest => "invalid_request",
            Code::InvalidKey => "invalid_key",
            Code::InvalidIssuer => "invalid_issuer",
            Code::InvalidAudience => "invalid_audience",
            Code::AuthenticationFailed => "authentication_failed",
            Code::AccessDenied => "access_denied",
        }
    }
}

impl Spot {
    /// Its text.
    pub fn as_str(self) -> &'static str
        ensures { result.now ≡ spot_text self }
    {
        match self {
            Spot::Bearer => "bearer",
            Spot::Length => "length",
            Spot::Compact => "compact",
            Spot::Header => "header",
            Spot::Typ => "typ",
            Spot::Crit => "crit",
            Spot::Payload => "payload",
            Spot::Iss => "iss",
            Spot::Alg => "alg",
            Spot::Kid => "kid",
            Spot::Mac => "mac",
            Spot::Aud => "aud",
            Spot::Jti => "jti",
            Spot::Iat => "iat",
            Spot::Exp => "exp",
            Spot::Sub => "sub",
            Spot::SubId => "sub_id",
            Spot::Events => "events",
            Spot::Event => "event",
        }
    }
}

/// The refusal with this code at this spot.
pub(crate) fn refused(code: Code, spot: Spot) -> Refusal
    ensures { result ≡ Refusal.Coded code spot }
{
    Refusal::Coded { code, spot }
}

impl<R: MemoryRefusal> From<R> for Refusal {
    ghost use Rattle.sig_set.specs.declared.refusal.Refusal.TheVariants.{Memory};

    ghost from_gives = { λ _ e. e ≡ Memory };

    fn from(_refusal: R) -> Refusal {
        Refusal::Memory
    }
}
