//! Keys, and the word that one is written as.

ghost use Rattle.std.specs.Prelude.{◌≡◌, IfOk};
ghost use Rattle.sig_jws.specs.Key.{key_word_of};

use base64::DecodeAllocError;
use base64::engine::general_purpose::URL_SAFE_NO_PAD;
use sig_json::limits::{KEY_BYTES_LEAST, KEY_BYTES_MOST};
use sig_json::{Bytes, Copied, Memory, Same, Text};
use std::alloc::Global;
use std::fmt;

/// A key that tokens are signed under. What is printed of it for debugging leaves its bytes out.
#[derive(Drop)]
pub struct Key {
    /// Its name, which a token's header gives as `kid` (RFC 7515, section 4.1.4), where it has one.
    pub kid: Option<Text>,
    /// Its bytes.
    pub bytes: Bytes,
}

impl Key {
    /// An equal value.
    pub fn copy(&self, alloc: Global) -> Result<Key, Memory>
        ensures { IfOk result (λ k. k ≡ self.now) }
    {
        let kid = match &self.kid {
            Some(name) => Some(name.copy(alloc)?),
            None => None,
        };
        Ok(Key {
            kid,
            bytes: self.bytes.copy(alloc)?,
        })
    }
}

impl fmt::Debug for Key {
    fn fmt<W: fmt::Write>(&self, f: &mut fmt::Formatter<W>) -> fmt::Result {
        let kid = &self.kid;
        write!(f, "Key {{ kid: {kid:?}, .. }}")
    }
}

impl Copied for Key {
    fn copied(&self, alloc: Global) -> Result<Key, Memory> {
        self.copy(alloc)
    }
}

impl Same for Key {
    fn same(&self, other: &Key) -> bool {
        self.kid.same(&other.kid) && self.bytes.same(&other.bytes)
    }
}

/// The key that a word spells: the bytes whose base64url without padding the word is, where there are 32 to 64 of them
/// (RFC 4648, section 5; RFC 7518, section 3.2, asks for 32 at least). None exactly where the word spells no key.
pub fn key_of(alloc: Global, word: &str) -> Result<Option<Bytes>, Memory>
    ensures { IfOk result (λ key. key ≡ key_word_of word.now) }
{
    match URL_SAFE_NO_PAD.decode(alloc, word.as_bytes()) {
        Ok(bytes) if KEY_BYTES_LEAST <= bytes.len() && bytes.len() <= KEY_BYTES_MOST => {
            Ok(Some(Bytes::from_vec(bytes)))
        }
        Ok(_) => Ok(None),
        Err(DecodeAllocError::DecodeError(_)) => Ok(None),
        Err(DecodeAllocError::OutOfMemory) => Err(Memory),
    }
}
