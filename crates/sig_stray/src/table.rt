//! The members that each object of settings may have.

ghost use Rattle.std.specs.Prelude.{◌≡◌};
ghost use Rattle.sig_stray.specs.Table as spec;

/// An object of settings.
#[derive(Clone, Copy, Debug, PartialEq, Eq)]
pub enum ObjectKind {
    /// The settings of a transmitter.
    Transmitter,
    /// A client of a transmitter.
    Client,
    /// The key of a transmitter.
    Key,
    /// The settings of a receiver.
    Receiver,
    /// An issuer that a receiver trusts.
    Issuer,
    /// A key of an issuer: a secret, or a public key as a JWK (RFC 7517, section 4).
    IssuerKey,
    /// Who may push tokens to a receiver.
    Principal,
    /// The transmitter whose tokens a receiver fetches.
    Peer,
}

/// What a member of settings holds.
#[derive(Clone, Copy, Debug, PartialEq, Eq)]
pub enum Holds {
    /// What has no members that are looked at.
    Value,
    /// An object of this kind.
    Object(ObjectKind),
    /// A list of objects of this kind.
    List(ObjectKind),
}

impl ObjectKind {
    /// What the member of this name holds, where such an object may have it.
    pub fn holds(self, name: &str) -> Option<Holds>
        ensures { result ≡ spec.held self name.now }
    {
        match self {
            ObjectKind::Transmitter => transmitter_member(name),
            ObjectKind::Client => client_member(name),
            ObjectKind::Key => key_member(name),
            ObjectKind::Receiver => receiver_member(name),
            ObjectKind::Issuer => issuer_member(name),
            ObjectKind::IssuerKey => issuer_key_member(name),
            ObjectKind::Principal => principal_member(name),
            ObjectKind::Peer => peer_member(name),
        }
    }
}

fn transmitter_member(name: &str) -> Option<Holds>
    ensures { result ≡ spec.held ObjectKind.Transmitter name.now }
{
    match name {
        "issuer" => Some(Holds::Value),
        "base" => Some(Holds::Value),
        "listen" => Some(Holds::Value),
        "operator" => Some(Holds::Value),
        "default_subjects" => Some(Holds::Value),
        "min_verification_interval" => Some(Holds::Value),
        "key" => Some(Holds::Object(ObjectKind::Key)),
        "clients" => Some(Holds::List(ObjectKind::Client)),
        "tls_gateway" => Some(Holds::Value),
        _ => None,
    }
}

fn client_member(name: &str) -> Option<Holds>
    ensures { result ≡ spec.held ObjectKind.Client name.now }
{
    match name {
        "aud" => Some(Holds::Value),
        "bearer" => Some(Holds::Value),
        "name" => Some(Holds::Value),
        _ => None,
    }
}

fn key_member(name: &str) -> Option<Holds>
    ensures { result ≡ spec.held ObjectKind.Key name.now }
{
    match name {
        "k" => Some(Holds::Value),
        "kid" => Some(Holds::Value),
        _ => None,
    }
}

fn receiver_member(name: &str) -> Option<Holds>
    ensures { result ≡ spec.held ObjectKind.Receiver name.now }
{
    match name {
        "audience" => Some(Holds::Value),
        "listen" => Some(Holds::Value),
        "reader" => Some(Holds::Value),
        "issuers" => Some(Holds::List(ObjectKind::Issuer)),
        "principals" => Some(Holds::List(ObjectKind::Principal)),
        "poll" => Some(Holds::Object(ObjectKind::Peer)),
        "tls_gateway" => Some(Holds::Value),
        _ => None,
    }
}

fn issuer_member(name: &str) -> Option<Holds>
    ensures { result ≡ spec.held ObjectKind.Issuer name.now }
{
    match name {
        "iss" => Some(Holds::Value),
        "keys" => Some(Holds::List(ObjectKind::IssuerKey)),
        _ => None,
    }
}

// The last six are members of a JWK that aren't read.
fn issuer_key_member(name: &str) -> Option<Holds>
    ensures { result ≡ spec.held ObjectKind.IssuerKey name.now }
{
    match name {
        "k" => Some(Holds::Value),
        "kid" => Some(Holds::Value),
        "kty" => Some(Holds::Value),
        "alg" => Some(Holds::Value),
        "n" => Some(Holds::Value),
        "e" => Some(Holds::Value),
        "use" => Some(Holds::Value),
        "key_ops" => Some(Holds::Value),
        "x5u" => Some(Holds::Value),
        "x5c" => Some(Holds::Value),
        "x5t" => Some(Holds::Value),
        "x5t#S256" => Some(Holds::Value),
        _ => None,
    }
}

fn principal_member(name: &str) -> Option<Holds>
    ensures { result ≡ spec.held ObjectKind.Principal name.now }
{
    match name {
        "bearer" => Some(Holds::Value),
        "iss" => Some(Holds::Value),
        _ => None,
    }
}

fn peer_member(name: &str) -> Option<Holds>
    ensures { result ≡ spec.held ObjectKind.Peer name.now }
{
    match name {
        "bearer" => Some(Holds::Value),
        "iss" => Some(Holds::Value),
        "url" => Some(Holds::Value),
        _ => None,
    }
}
