ghost use Rattle.std.specs.Prelude.{◌≡◌, IfOk};

use sig_json::{Copied, Items, Memory, Same, Text, copy_items};
use sig_jws::Key;
use sig_rs256::RsaKey;
use std::alloc::Global;

/// An issuer whose tokens are taken, with the keys that its tokens are verified by. Each algorithm has a list of its own, so
/// that no key is taken for one of another algorithm (RFC 8725, section 3.1).
pub struct Issuer {
    /// Its name, compared byte for byte with a token's `iss`.
    pub iss: Text,
    /// The secrets that it signs under by HS256 (RFC 7518, section 3.2).
    pub keys: Items<Key>,
    /// The public keys of those that it signs with by RS256 (RFC 7518, section 3.3).
    pub public_keys: Items<RsaKey>,
}

impl Drop for Issuer {
    fn drop(self) {
        let Issuer {
            iss,
            keys,
            public_keys,
        } = self;
        drop(iss);
        drop(keys);
        drop(public_keys);
    }
}

/// Whom a receiver trusts.
pub struct Trust {
    /// The receiver's own name, which a token's `aud` has to have.
    pub audience: Text,
    /// The issuers whose tokens it takes; of those with one name the first counts.
    pub issuers: Items<Issuer>,
}

impl Drop for Trust {
    fn drop(self) {
        let Trust { audience, issuers } = self;
        drop(audience);
        drop(issuers);
    }
}

impl Issuer {
    /// An equal issuer.
    pub fn copy(&self, alloc: Global) -> Result<Issuer, Memory>
        ensures { IfOk result (λ i. i ≡ self.now) }
    {
        Ok(Issuer {
            iss: self.iss.copy(alloc)?,
            keys: copy_items(alloc, &self.keys)?,
            public_keys: copy_items(alloc, &self.public_keys)?,
        })
    }
}

impl Trust {
    /// An equal trust.
    pub fn copy(&self, alloc: Global) -> Result<Trust, Memory>
        ensures { IfOk result (λ t. t ≡ self.now) }
    {
        Ok(Trust {
            audience: self.audience.copy(alloc)?,
            issuers: copy_items(alloc, &self.issuers)?,
        })
    }
}

impl Copied for Issuer {
    fn copied(&self, alloc: Global) -> Result<Issuer, Memory> {
        self.copy(alloc)
    }
}

impl Same for Issuer {
    fn same(&self, other: &Issuer) -> bool {
        self.iss.same(&other.iss)
            && self.keys.same(&other.keys)
            && self.public_keys.same(&other.public_keys)
    }
}

impl Same for Trust {
    fn same(&self, other: &Trust) -> bool {
        self.audience.same(&other.audience) && self.issuers.same(&other.issuers)
    }
}
