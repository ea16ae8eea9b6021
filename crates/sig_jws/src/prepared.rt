//! A key that is prepared once for many messages.

ghost use Rattle.std.specs.Prelude.{◌≡◌, ◌↔◌, IsTrue};
ghost use Rattle.sig_jws.specs.Hmac.{hmac_of};

use crate::mac::{Hashers, is_mac};
use crate::{Compact, Key, MAC_BYTES};
use std::fmt;
use std::marker::Model;

/// A key whose two blocks are hashed already, once for all messages (RFC 2104, section 4). Contracts see the key. What is
/// printed of it for debugging leaves its bytes and its hashers out.
#[derive(Drop)]
pub struct PreparedKey {
    key: Key,
    hashers: Hashers,
}

impl Model for PreparedKey {
    ghost use Rattle.sig_jws.specs.declared.key.Key.{Key};
    ghost use Rattle.sig_jws.specs.Prepared.{AreKeyed};

    ghost Value = { Key };

    ghost view = { λ p. p.key };

    ghost invariant = { λ p. AreKeyed p.key.bytes p.hashers.inner p.hashers.outer };
}

impl PreparedKey {
    /// The same key, prepared. It takes no memory.
    pub fn of(key: Key) -> PreparedKey
        ensures { result ≡ key }
    {
        let hashers = Hashers::of(key.bytes.as_slice());
        PreparedKey { key, hashers }
    }

    /// The key.
    pub fn key(&self) -> &Key
        ensures { result.now ≡ self.now }
    {
        &self.key
    }

    /// The MAC of a message under the key (RFC 2104, section 2, with SHA-256). It takes no memory.
    pub fn mac(&self, message: &[u8]) -> [u8; MAC_BYTES]
        ensures { result ≡ hmac_of self.now.bytes message.now }
    {
        self.hashers.copy().mac(message)
    }

    /// Whether the token's MAC is the right one for its signing input, as `verifies` tells it of the key's bytes. It takes
    /// no memory.
    pub fn verifies(&self, token: &Compact) -> bool
        ensures { IsTrue result ↔ (token.now.mac ≡ hmac_of self.now.bytes token.now.input) }
    {
        is_mac(token.mac.as_slice(), &self.mac(token.input.as_slice()))
    }
}

impl fmt::Debug for PreparedKey {
    fn fmt<W: fmt::Write>(&self, f: &mut fmt::Formatter<W>) -> fmt::Result {
        let key = &self.key;
        write!(f, "PreparedKey {{ key: {key:?}, .. }}")
    }
}
