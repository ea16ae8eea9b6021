//! HMAC with SHA-256 (RFC 2104), and the comparison of two MACs.
//!
//! A comparison that ends at the first byte that differs tells by its time how far a forged MAC is right. `is_mac` looks
//! at all 32 bytes and ends no earlier, as RFC 7518, section 3.2, asks. That is what the source says: no contract
//! speaks of time, and a compiler may still choose other steps that give the same answer.

ghost use Rattle.std.specs.Prelude.{◌≡◌, ◌≤◌, ◌↔◌, ◌++◌, IsTrue, length, drop};
ghost use Rattle.sig_jws.specs.Hmac.{block_of, hmac_of, mixed};
ghost use Rattle.sig_jws.specs.Prepared.{AreKeyed};

use sha2::{Digest, Sha256};

/// Bytes of a MAC.
pub const MAC_BYTES: usize = 32;

/// Bytes of one block of the hash.
const BLOCK_BYTES: usize = 64;

/// The byte that the key is mixed with before the message.
const INNER_PAD: u8 = 0x36;

/// The byte that the key is mixed with before the inner digest.
const OUTER_PAD: u8 = 0x5c;

/// The 32 bytes of the MAC of a message under a key of any length (RFC 2104, section 2, with SHA-256). It takes no
/// memory.
pub fn hmac(key: &[u8], message: &[u8]) -> [u8; MAC_BYTES]
    ensures { result ≡ hmac_of key.now message.now }
{
    Hashers::of(key).mac(message)
}

/// The hashers of the inner and of the outer digest under a key, each of which has taken in its block of the key.
#[derive(Drop)]
pub(crate) struct Hashers {
    pub inner: Sha256,
    pub outer: Sha256,
}

impl Hashers {
    ghost use Rattle.std.specs.Prelude.{ℕ, List};

    /// Those of a key.
    pub fn of(key: &[u8]) -> Hashers
        ensures { AreKeyed key.now result.inner result.outer }
    {
        let block = block_from(key);
        let mut inner = Sha256::new();
        inner.update(&mixed_with(&block, INNER_PAD));
        let mut outer = Sha256::new();
        outer.update(&mixed_with(&block, OUTER_PAD));
        Hashers { inner, outer }
    }

    /// Equal ones. They take no memory.
    pub fn copy(&self) -> Hashers
        ensures { result ≡ self.now }
    {
        Hashers {
            inner: self.inner.clone().unwrap(),
            outer: self.outer.clone().unwrap(),
        }
    }

    /// The MAC of a message under their key.
    #[tactic(auto, unfolding(crate::specs::Hmac::hmac_of))]
    pub fn mac(self, message: &[u8]) -> [u8; MAC_BYTES]
        ensures { (key : List ℕ) → AreKeyed key self.inner self.outer → result ≡ hmac_of key message.now }
    {
        let Hashers {
            mut inner,
            mut outer,
        } = self;
        inner.update(message);
        outer.update(&inner.finalize());
        outer.finalize()
    }
}

// The key as one block of the hash.
fn block_from(key: &[u8]) -> [u8; BLOCK_BYTES]
    ensures { result ≡ block_of key.now }
{
    let mut block = [0u8; BLOCK_BYTES];
    if key.len() > BLOCK_BYTES {
        let digest = Sha256::digest(key);
        put_prefix(&mut block, &digest);
    } else {
        put_prefix(&mut block, key);
    }
    block
}

fn mixed_with(block: &[u8; BLOCK_BYTES], byte: u8) -> [u8; BLOCK_BYTES]
    ensures { result ≡ mixed byte block.now }
{
    let mut out = *block;
    for x in out.iter_mut() {
        *x ^= byte;
    }
    out
}

// Writes the bytes over a prefix of the block.
fn put_prefix(block: &mut [u8], bytes: &[u8])
    requires { length bytes.now ≤ length block.old }
    ensures { block.new ≡ bytes.now ++ drop (length bytes.now) block.old }
{
    let (prefix, _) = block.split_at_mut(bytes.len());
    prefix.copy_from_slice(bytes);
}

/// Whether the bytes are this MAC. Of 32 bytes each is looked at, whichever differ.
pub(crate) fn is_mac(bytes: &[u8], mac: &[u8; MAC_BYTES]) -> bool
    ensures { IsTrue result ↔ (bytes.now ≡ mac.now) }
{
    bytes.len() == MAC_BYTES && difference(bytes, mac.as_slice()) == 0
}

// All bits in which bytes at one place differ, folded into one byte: none exactly where the two are equal.
fn difference(bytes: &[u8], others: &[u8]) -> u8
    requires { length bytes.now ≡ length others.now }
    ensures { (result ≡ 0) ↔ (bytes.now ≡ others.now) }
{
    let mut bits = 0;
    for i in 0..bytes.len() {
        bits |= bytes[i] ^ others[i];
    }
    bits
}
