ghost use Rattle.std.specs.Prelude.{◌≡◌};
ghost use Rattle.sig_subject.specs.Formats.{format_in, formats};

/// A format of an identifier without parts (RFC 9493, section 3.2; OpenID Shared Signals Framework 1.0, section 4).
#[derive(Clone, Copy, PartialEq, Eq)]
pub enum PlainFormat {
    /// `account` (RFC 9493, section 3.2.1).
    Account,
    /// `email` (RFC 9493, section 3.2.2).
    Email,
    /// `iss_sub` (RFC 9493, section 3.2.3).
    IssSub,
    /// `opaque` (RFC 9493, section 3.2.4).
    Opaque,
    /// `phone_number` (RFC 9493, section 3.2.5).
    Phone,
    /// `did` (RFC 9493, section 3.2.6).
    Did,
    /// `uri` (RFC 9493, section 3.2.7).
    Uri,
    /// `jwt_id` (OpenID Shared Signals Framework 1.0, section 4).
    JwtId,
    /// `saml_assertion_id` (OpenID Shared Signals Framework 1.0, section 4).
    Saml,
    /// Any name that is not known here.
    Unknown,
}

/// A format of a subject.
#[derive(Clone, Copy, PartialEq, Eq)]
pub enum Format {
    /// An identifier without parts.
    Plain(PlainFormat),
    /// `aliases` (RFC 9493, section 3.2.8).
    Aliases,
    /// `complex` (OpenID Shared Signals Framework 1.0, section 4).
    Complex,
}

impl Format {
    /// The format of this name.
    pub fn named(name: &str) -> Format
        ensures { result ≡ format_in name.now formats }
    {
        match name {
            "account" => Format::Plain(PlainFormat::Account),
            "email" => Format::Plain(PlainFormat::Email),
            "iss_sub" => Format::Plain(PlainFormat::IssSub),
            "opaque" => Format::Plain(PlainFormat::Opaque),
            "phone_number" => Format::Plain(PlainFormat::Phone),
            "did" => Format::Plain(PlainFormat::Did),
            "uri" => Format::Plain(PlainFormat::Uri),
            "jwt_id" => Format::Plain(PlainFormat::JwtId),
            "saml_assertion_id" => Format::Plain(PlainFormat::Saml),
            "aliases" => Format::Aliases,
            "complex" => Format::Complex,
            _ => Format::Plain(PlainFormat::Unknown),
        }
    }
}
