ghost use Rattle.std.specs.Prelude.{◌≡◌, ◌↔◌, IfOk, IsTrue};

use sig_json::{Copied, Items, Memory, Same, Text, copy_items, copy_optional};
use sig_outside::Place;
use sig_set::Trust;
use sig_terms::Endpoint;
use std::alloc::Global;

/// Who may push tokens, and for whom.
#[derive(Drop)]
pub struct Principal {
    /// The bearer token that it shows (RFC 6750, section 2.1).
    pub bearer: Text,
    /// The issuer for whom it may speak.
    pub iss: Text,
}

/// A transmitter whose tokens are fetched.
pub struct Peer {
    /// Where it is polled.
    pub endpoint: Endpoint,
    /// Where the links to it lead, where its endpoint is `https`.
    pub gateway: Option<Place>,
    /// The bearer token that is shown to it (RFC 6750, section 2.1).
    pub bearer: Text,
    /// The issuer for whom it may speak.
    pub iss: Text,
}

impl Drop for Peer {
    fn drop(self) {
        let Peer {
            endpoint,
            gateway,
            bearer,
            iss,
        } = self;
        drop(endpoint);
        drop(gateway);
        drop(bearer);
        drop(iss);
    }
}

/// The settings of a receiver.
pub struct RxRules {
    /// Whom it trusts.
    pub trust: Trust,
    /// Who may push tokens; of those with one bearer the first counts.
    pub principals: Items<Principal>,
    /// The bearer token of those who read the session table.
    pub reader: Text,
    /// Of whom tokens are fetched.
    pub peer: Option<Peer>,
}

impl Drop for RxRules {
    fn drop(self) {
        let RxRules {
            trust,
            principals,
            reader,
            peer,
        } = self;
        drop(trust);
        drop(principals);
        drop(reader);
        drop(peer);
    }
}

impl Principal {
    /// An equal one. Out of memory is its only error.
    pub fn copy(&self, alloc: Global) -> Result<Principal, Memory>
        ensures { IfOk result (λ p. p ≡ self.now) }
    {
        Ok(Principal {
            bearer: self.bearer.copy(alloc)?,
            iss: self.iss.copy(alloc)?,
        })
    }
}

impl Peer {
    /// An equal one. Out of memory is its only error.
    pub fn copy(&self, alloc: Global) -> Result<Peer, Memory>
        ensures { IfOk result (λ p. p ≡ self.now) }
    {
        Ok(Peer {
            endpoint: self.endpoint.copy(alloc)?,
            gateway: copy_gateway(alloc, &self.gateway)?,
            bearer: self.bearer.copy(alloc)?,
            iss: self.iss.copy(alloc)?,
        })
    }
}

fn copy_gateway(alloc: Global, gateway: &Option<Place>) -> Result<Option<Place>, Memory>
    ensures { IfOk result (λ g. g ≡ gateway.now) }
{
    match gateway {
        Some(place) => Ok(Some(place.copy(alloc)?)),
        None => Ok(None),
    }
}

impl RxRules {
    /// Equal rules. Out of memory is its only error.
    pub fn copy(&self, alloc: Global) -> Result<RxRules, Memory>
        ensures { IfOk result (λ r. r ≡ self.now) }
    {
        Ok(RxRules {
            trust: self.trust.copy(alloc)?,
            principals: copy_items(alloc, &self.principals)?,
            reader: self.reader.copy(alloc)?,
            peer: copy_optional(alloc, &self.peer)?,
        })
    }
}

impl Copied for Principal {
    fn copied(&self, alloc: Global) -> Result<Principal, Memory> {
        self.copy(alloc)
    }
}

impl Copied for Peer {
    fn copied(&self, alloc: Global) -> Result<Peer, Memory> {
        self.copy(alloc)
    }
}

impl Same for Principal {
    fn same(&self, other: &Principal) -> bool {
        self.bearer.same(&other.bearer) && self.iss.same(&other.iss)
    }
}

impl Same for Peer {
    fn same(&self, other: &Peer) -> bool {
        self.endpoint.same(&other.endpoint)
            && same_gateway(&self.gateway, &other.gateway)
            && self.bearer.same(&other.bearer)
            && self.iss.same(&other.iss)
    }
}

fn same_gateway(one: &Option<Place>, other: &Option<Place>) -> bool
    ensures { IsTrue result ↔ (one.now ≡ other.now) }
{
    match one {
        None => matches!(other, None),
        Some(place) => match other {
            None => false,
            Some(theirs) => place.host.same(&theirs.host) && place.port == theirs.port,
        },
    }
}

impl Same for RxRules {
    fn same(&self, other: &RxRules) -> bool {
        self.trust.same(&other.trust)
            && self.principals.same(&other.principals)
            && self.reader.same(&other.reader)
            && self.peer.same(&other.peer)
    }
}
