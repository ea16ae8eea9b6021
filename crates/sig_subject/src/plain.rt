ghost use Rattle.std.specs.Prelude.{◌≡◌, IfOk};

use sig_json::{Copied, Memory, Same, Text};
use std::alloc::Global;

/// A subject identifier of one format without parts (RFC 9493, section 3.2; OpenID Shared Signals Framework 1.0,
/// section 4). No text of a known format is empty.
#[derive(PartialEq, Eq, Hash)]
pub enum Plain {
    /// `account`: a URI that begins with `acct:` (RFC 9493, section 3.2.1).
    Account { uri: Text },
    /// `email`: an e-mail address (section 3.2.2).
    Email { email: Text },
    /// `iss_sub`: an issuer and its name of the subject (section 3.2.3).
    IssSub { iss: Text, sub: Text },
    /// `opaque`: a name that only its maker understands (section 3.2.4).
    Opaque { id: Text },
    /// `phone_number`: a telephone number (section 3.2.5).
    Phone { phone_number: Text },
    /// `did`: a URL that begins with `did:` (section 3.2.6).
    Did { url: Text },
    /// `uri`: any URI (section 3.2.7).
    Uri { uri: Text },
    /// `jwt_id`: a token by its issuer and its identifier (Shared Signals Framework 1.0, section 4).
    JwtId { iss: Text, jti: Text },
    /// `saml_assertion_id`: an assertion by its issuer and its identifier (Shared Signals Framework 1.0, section 4).
    Saml { issuer: Text, assertion_id: Text },
    /// A format that is not known here: the whole object as canonical text.
    Unknown { canon: Text },
}

impl Plain {
    /// An equal identifier.
    pub fn copy(&self, alloc: Global) -> Result<Plain, Memory>
        ensures { IfOk result (λ c. c ≡ self.now) }
    {
        Ok(match self {
            Plain::Account { uri } => Plain::Account {
                uri: uri.copy(alloc)?,
            },
            Plain::Email { email } => Plain::Email {
                email: email.copy(alloc)?,
            },
            Plain::IssSub { iss, sub } => {
                let iss = iss.copy(alloc)?;
                let sub = sub.copy(alloc)?;
                Plain::IssSub { iss, sub }
            }
            Plain::Opaque { id } => Plain::Opaque {
                id: id.copy(alloc)?,
            },
            Plain::Phone { phone_number } => Plain::Phone {
                phone_number: phone_number.copy(alloc)?,
            },
            Plain::Did { url } => Plain::Did {
                url: url.copy(alloc)?,
            },
            Plain::Uri { uri } => Plain::Uri {
                uri: uri.copy(alloc)?,
            },
            Plain::JwtId { iss, jti } => {
                let iss = iss.copy(alloc)?;
                let jti = jti.copy(alloc)?;
                Plain::JwtId { iss, jti }
            }
            Plain::Saml {
                issuer,
                assertion_id,
            } => {
                let issuer = issuer.copy(alloc)?;
                let assertion_id = assertion_id.copy(alloc)?;
                Plain::Saml {
                    issuer,
                    assertion_id,
                }
            }
            Plain::Unknown { canon } => Plain::Unknown {
                canon: canon.copy(alloc)?,
            },
        })
    }
}

impl Copied for Plain {
    fn copied(&self, alloc: Global) -> Result<Plain, Memory> {
        self.copy(alloc)
    }
}

impl Same for Plain {
    fn same(&self, other: &Plain) -> bool {
        self == other
    }
}

impl Drop for Plain {
    fn drop(self) {
        match self {
            Plain::Account { uri: text }
            | Plain::Email { email: text }
            | Plain::Opaque { id: text }
            | Plain::Phone { phone_number: text }
            | Plain::Did { url: text }
            | Plain::Uri { uri: text }
            | Plain::Unknown { canon: text } => drop(text),
            Plain::IssSub {
                iss: one,
                sub: other,
            }
            | Plain::JwtId {
                iss: one,
                jti: other,
            }
            | Plain::Saml {
                issuer: one,
                assertion_id: other,
            } => {
                drop(one);
                drop(other);
            }
        }
    }
}
