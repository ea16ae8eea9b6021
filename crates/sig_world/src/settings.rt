//! The settings of both ends under a script.

ghost use Rattle.std.specs.Prelude.{◌≡◌, ◌∷◌, [], IfOk, codes};
ghost use Rattle.sig_schedules.specs.Replay as spec;
ghost use Rattle.sig_world.specs.Ends as ends;

use sig_json::{Bytes, Items, Memory, Text};
use sig_jws::Key;
use sig_rxnode::RxRules;
use sig_set::{Issuer, Trust};
use sig_terms::{Client, Defaults, Rules};
use std::alloc::Global;

/// The transmitter's store, 6ba7b810-9dad-11d1-80b4-00c04fd430c8.
pub(crate) const STORE_ID: [u8; 16] = [
    0x6b, 0xa7, 0xb8, 0x10, 0x9d, 0xad, 0x11, 0xd1, 0x80, 0xb4, 0x00, 0xc0, 0x4f, 0xd4, 0x30, 0xc8,
];

/// The receiver's store, 6ba7b811-9dad-11d1-80b4-00c04fd430c8.
pub(crate) const RECEIVER_STORE_ID: [u8; 16] = [
    0x6b, 0xa7, 0xb8, 0x11, 0x9d, 0xad, 0x11, 0xd1, 0x80, 0xb4, 0x00, 0xc0, 0x4f, 0xd4, 0x30, 0xc8,
];

/// The transmitter's rules.
pub(crate) fn replay_rules(alloc: Global) -> Result<Rules, Memory>
    ensures { IfOk result (λ rules. rules ≡ spec.replay_rules) }
{
    Ok(Rules {
        issuer: Text::of(alloc, "https://idp.example")?,
        base: Text::of(alloc, "http://tx.example")?,
        defaults: Defaults::All,
        interval: 60,
        gateway: None,
        operator: Text::of(alloc, "operator")?,
        clients: clients(alloc)?,
        key: key(alloc)?,
    })
}

/// The receiver's settings: nobody pushes to it, and nobody is polled.
pub(crate) fn receiver_rules(alloc: Global) -> Result<RxRules, Memory>
    ensures { IfOk result (λ rules. rules ≡ ends.receiver_rules) }
{
    Ok(RxRules {
        trust: replay_trust(alloc)?,
        principals: Items::of(Vec::new(alloc)),
        reader: Text::of(alloc, "")?,
        peer: None,
    })
}

// Whom the receiver trusts.
fn replay_trust(alloc: Global) -> Result<Trust, Memory>
    ensures { IfOk result (λ trust. trust ≡ spec.replay_trust) }
{
    let mut keys = Vec::new(alloc);
    keys.push(key(alloc)?)?;
    let mut issuers = Vec::new(alloc);
    issuers.push(Issuer {
        iss: Text::of(alloc, "https://idp.example")?,
        keys: Items::of(keys),
        public_keys: Items::of(Vec::new(alloc)),
    })?;
    Ok(Trust {
        audience: Text::of(alloc, "https://rp.example")?,
        issuers: Items::of(issuers),
    })
}

fn clients(alloc: Global) -> Result<Items<Client>, Memory>
    ensures { IfOk result (λ clients. clients ≡ spec.replay_clients) }
{
    let mut clients = Vec::new(alloc);
    clients.push(client(alloc, "acme")?)?;
    clients.push(client(alloc, "zeta")?)?;
    Ok(Items::of(clients))
}

fn client(alloc: Global, name: &str) -> Result<Client, Memory>
    ensures { IfOk result (λ client. client ≡ spec.client_named name.now) }
{
    Ok(Client {
        name: Text::of(alloc, name)?,
        bearer: Text::of(alloc, name)?,
        aud: audience(alloc)?,
    })
}

// The receiver, alone.
fn audience(alloc: Global) -> Result<Items<Text>, Memory>
    ensures { IfOk result (λ aud. aud ≡ codes "https://rp.example" ∷ []) }
{
    let mut texts = Vec::new(alloc);
    texts.push(Text::of(alloc, "https://rp.example")?)?;
    Ok(Items::of(texts))
}

fn key(alloc: Global) -> Result<Key, Memory>
    ensures { IfOk result (λ key. key ≡ spec.replay_key) }
{
    Ok(Key {
        kid: Some(Text::of(alloc, "k1")?),
        bytes: Bytes::of(alloc, b"0123456789abcdef0123456789abcdef")?,
    })
}
