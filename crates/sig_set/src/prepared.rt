//! A trust whose keys are prepared once for many tokens.

ghost use Rattle.std.specs.Prelude.{◌≡◌, IfOk, bytes_eq};

use crate::{Issuer, Trust};
use sig_json::{Items, Memory, Text};
use sig_jws::{Key, PreparedKey};
use sig_rs256::{PreparedRsaKey, RsaKey};
use std::alloc::Global;
use std::marker::Model;

/// An issuer whose keys are prepared. Contracts see the issuer.
pub struct PreparedIssuer {
    iss: Text,
    keys: Items<PreparedKey>,
    public_keys: Items<PreparedRsaKey>,
}

impl Drop for PreparedIssuer {
    fn drop(self) {
        let PreparedIssuer {
            iss,
            keys,
            public_keys,
        } = self;
        drop(iss);
        drop(keys);
        drop(public_keys);
    }
}

impl Model for PreparedIssuer {
    ghost use Rattle.sig_set.specs.declared.trust.Issuer.{Issuer};

    ghost Value = { Issuer };

    ghost view = { λ i. record { iss = i.iss; keys = i.keys; public_keys = i.public_keys } };
}

impl PreparedIssuer {
    /// The same issuer, with its keys prepared. Out of memory is its only error.
    fn of(alloc: Global, issuer: &Issuer) -> Result<PreparedIssuer, Memory>
        ensures { IfOk result (λ i. i ≡ issuer.now) }
    {
        Ok(PreparedIssuer {
            iss: issuer.iss.copy(alloc)?,
            keys: prepared_keys(alloc, issuer.keys.as_slice())?,
            public_keys: prepared_public_keys(alloc, issuer.public_keys.as_slice())?,
        })
    }

    /// Whether this is its name.
    pub(crate) fn is_named(&self, iss: &str) -> bool
        ensures { result ≡ bytes_eq self.now.iss iss.now }
    {
        self.iss.as_str() == iss
    }

    /// Its secrets.
    pub(crate) fn keys(&self) -> &[PreparedKey]
        ensures { result.now ≡ self.now.keys }
    {
        self.keys.as_slice()
    }

    /// Its public keys.
    pub(crate) fn public_keys(&self) -> &[PreparedRsaKey]
        ensures { result.now ≡ self.now.public_keys }
    {
        self.public_keys.as_slice()
    }
}

/// A trust whose keys are prepared, for a judgement of many tokens. Contracts see the trust.
pub struct PreparedTrust {
    audience: Text,
    issuers: Items<PreparedIssuer>,
}

impl Drop for PreparedTrust {
    fn drop(self) {
        let PreparedTrust { audience, issuers } = self;
        drop(audience);
        drop(issuers);
    }
}

impl Model for PreparedTrust {
    ghost use Rattle.sig_set.specs.declared.trust.Trust.{Trust};

    ghost Value = { Trust };

    ghost view = { λ t. record { audience = t.audience; issuers = t.issuers } };
}

impl PreparedTrust {
    /// The same trust, with its keys prepared. Out of memory is its only error.
    pub fn of(alloc: Global, trust: &Trust) -> Result<PreparedTrust, Memory>
        ensures { IfOk result (λ t. t ≡ trust.now) }
    {
        Ok(PreparedTrust {
            audience: trust.audience.copy(alloc)?,
            issuers: prepared_issuers(alloc, trust.issuers.as_slice())?,
        })
    }

    /// The receiver's own name.
    pub(crate) fn audience(&self) -> &str
        ensures { result.now ≡ self.now.audience }
    {
        self.audience.as_str()
    }

    /// The issuers whose tokens are taken.
    pub(crate) fn issuers(&self) -> &[PreparedIssuer]
        ensures { result.now ≡ self.now.issuers }
    {
        self.issuers.as_slice()
    }
}

fn prepared_keys(alloc: Global, keys: &[Key]) -> Result<Items<PreparedKey>, Memory>
    ensures { IfOk result (λ prepared. prepared ≡ keys.now) }
{
    let mut prepared = Vec::new(alloc);
    for key in keys {
        prepared.push(PreparedKey::of(key.copy(alloc)?))?;
    }
    Ok(Items::of(prepared))
}

fn prepared_public_keys(alloc: Global, keys: &[RsaKey]) -> Result<Items<PreparedRsaKey>, Memory>
    ensures { IfOk result (λ prepared. prepared ≡ keys.now) }
{
    let mut prepared = Vec::new(alloc);
    for key in keys {
        prepared.push(PreparedRsaKey::of(alloc, key)?)?;
    }
    Ok(Items::of(prepared))
}

fn prepared_issuers(alloc: Global, issuers: &[Issuer]) -> Result<Items<PreparedIssuer>, Memory>
    ensures { IfOk result (λ prepared. prepared ≡ issuers.now) }
{
    let mut prepared = Vec::new(alloc);
    for issuer in issuers {
        prepared.push(PreparedIssuer::of(alloc, issuer)?)?;
    }
    Ok(Items::of(prepared))
}
