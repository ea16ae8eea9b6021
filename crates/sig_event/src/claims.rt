ghost use Rattle.std.specs.Prelude.{◌≡◌, IfOk};

use crate::Event;
use sig_json::{Copied, Items, Memory, Same, Text, copy_items};
use sig_subject::Subject;
use std::alloc::Global;

/// What a security event token says (RFC 8417, section 2.2).
#[derive(Drop)]
pub struct Claims {
    /// Who issued it.
    pub iss: Text,
    /// Its identifier, which the issuer uses once.
    pub jti: Text,
    /// When it was issued, in whole seconds since 1970.
    pub iat: u64,
    /// For whom it is.
    pub aud: Items<Text>,
    /// Whom its events are about.
    pub subject: Subject,
    /// What happened.
    pub events: Items<Event>,
}

impl Claims {
    /// Equal claims.
    pub fn copy(&self, alloc: Global) -> Result<Claims, Memory>
        ensures { IfOk result (λ c. c ≡ self.now) }
    {
        let iss = self.iss.copy(alloc)?;
        let jti = self.jti.copy(alloc)?;
        let aud = copy_items(alloc, &self.aud)?;
        let subject = self.subject.copy(alloc)?;
        let events = copy_items(alloc, &self.events)?;
        Ok(Claims {
            iss,
            jti,
            iat: self.iat,
            aud,
            subject,
            events,
        })
    }
}

impl Copied for Claims {
    fn copied(&self, alloc: Global) -> Result<Claims, Memory> {
        self.copy(alloc)
    }
}

impl Same for Claims {
    fn same(&self, other: &Claims) -> bool {
        self.iss.same(&other.iss)
            && self.jti.same(&other.jti)
            && self.iat.same(&other.iat)
            && self.aud.same(&other.aud)
            && self.subject.same(&other.subject)
            && self.events.same(&other.events)
    }
}
