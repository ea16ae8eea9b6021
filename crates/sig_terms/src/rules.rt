ghost use Rattle.std.specs.Prelude.{◌≡◌, IfOk};

use crate::Defaults;
use sig_json::{Copied, Items, Memory, Text, copy_items};
use sig_jws::Key;
use sig_outside::Place;
use std::alloc::Global;

/// A client of the transmitter: a receiver that may have streams.
pub struct Client {
    /// Its name, 1 to 32 of `a-z` and `0-9`.
    pub name: Text,
    /// The bearer token that it shows (RFC 6750, section 2.1).
    pub bearer: Text,
    /// Whom its tokens are for.
    pub aud: Items<Text>,
}

impl Drop for Client {
    fn drop(self) {
        let Client { name, bearer, aud } = self;
        drop(name);
        drop(bearer);
        drop(aud);
    }
}

impl Client {
    /// An equal one.
    pub fn copy(&self, alloc: Global) -> Result<Client, Memory>
        ensures { IfOk result (λ c. c ≡ self.now) }
    {
        Ok(Client {
            name: self.name.copy(alloc)?,
            bearer: self.bearer.copy(alloc)?,
            aud: copy_items(alloc, &self.aud)?,
        })
    }
}

impl Copied for Client {
    fn copied(&self, alloc: Global) -> Result<Client, Memory> {
        self.copy(alloc)
    }
}

/// The settings of a transmitter.
pub struct Rules {
    /// Who makes the tokens.
    pub issuer: Text,
    /// The prefix of the addresses of its endpoints.
    pub base: Text,
    /// Which subjects a new stream has.
    pub defaults: Defaults,
    /// Seconds between two verifications of a new stream at least, from 0 to 86,400.
    pub interval: u64,
    /// Where links to `https` endpoints lead; with none, no such endpoint is taken.
    pub gateway: Option<Place>,
    /// The bearer token of its operator.
    pub operator: Text,
    /// Its clients, each name once.
    pub clients: Items<Client>,
    /// The key that it signs with.
    pub key: Key,
}

impl Drop for Rules {
    fn drop(self) {
        let Rules {
            issuer,
            base,
            defaults: _,
            interval: _,
            gateway,
            operator,
            clients,
            key,
        } = self;
        drop(issuer);
        drop(base);
        drop(gateway);
        drop(operator);
        drop(clients);
        drop(key);
    }
}

impl Rules {
    /// Equal rules.
    pub fn copy(&self, alloc: Global) -> Result<Rules, Memory>
        ensures { IfOk result (λ r. r ≡ self.now) }
    {
        Ok(Rules {
            issuer: self.issuer.copy(alloc)?,
            base: self.base.copy(alloc)?,
            defaults: self.defaults,
            interval: self.interval,
            gateway: copy_gateway(alloc, &self.gateway)?,
            operator: self.operator.copy(alloc)?,
            clients: copy_items(alloc, &self.clients)?,
            key: self.key.copy(alloc)?,
        })
    }
}

fn copy_gateway(alloc: Global, gateway: &Option<Place>) -> Result<Option<Place>, Memory>
    ensures { IfOk result (λ g. g ≡ gateway.now) }
{
    match gateway {
        None => Ok(None),
        Some(place) => Ok(Some(place.copy(alloc)?)),
    }
}
