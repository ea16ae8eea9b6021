//! The words that an RSA public key is written as (RFC 7518, section 6.3.1).

ghost use Rattle.std.specs.Prelude.{◌≡◌, ◌≤◌, IfOk, length};
ghost use Rattle.sig_set.specs.RsaWords as spec;

use base64::DecodeAllocError;
use base64::engine::general_purpose::URL_SAFE_NO_PAD;
use sig_json::{Bytes, Memory, Text};
use sig_rs256::RsaKey;
use std::alloc::Global;

/// Octets of an exponent at most.
const EXPONENT_OCTETS: usize = 4;

/// The public key whose modulus and exponent the words `n` and `e` spell, under this name where there is one (RFC 7518,
/// section 6.3.1).
///
/// None exactly where a word is no canonical base64url without padding, or spells no number above 0 without leading zero
/// octets (RFC 7518, section 2), the exponent has more than four octets, or the two are no key.
pub fn rsa_key_of(
    alloc: Global,
    kid: Option<Text>,
    n: &str,
    e: &str,
) -> Result<Option<RsaKey>, Memory>
    ensures { IfOk result (λ key. key ≡ spec.rsa_key_word kid n.now e.now) }
{
    let Some(modulus) = octets_of(alloc, n)? else {
        return Ok(None);
    };
    let Some(exponent) = exponent_from(alloc, e)? else {
        return Ok(None);
    };
    RsaKey::of(alloc, kid, modulus.as_slice(), exponent)
}

// The exponent that a word spells.
fn exponent_from(alloc: Global, word: &str) -> Result<Option<u32>, Memory>
    ensures { IfOk result (λ exponent. exponent ≡ spec.exponent_of_word word.now) }
{
    match octets_of(alloc, word)? {
        Some(octets) => Ok(exponent_of(octets.as_slice())),
        None => Ok(None),
    }
}

// The octets of the number above 0 that a word spells.
fn octets_of(alloc: Global, word: &str) -> Result<Option<Bytes>, Memory>
    ensures { IfOk result (λ octets. octets ≡ spec.octets_of_word word.now) }
{
    match URL_SAFE_NO_PAD.decode(alloc, word.as_bytes()) {
        Ok(octets) if starts_full(octets.as_slice()) => Ok(Some(Bytes::from_vec(octets))),
        Ok(_) => Ok(None),
        Err(DecodeAllocError::DecodeError(_)) => Ok(None),
        Err(DecodeAllocError::OutOfMemory) => Err(Memory),
    }
}

fn starts_full(octets: &[u8]) -> bool
    ensures { result ≡ spec.starts_full octets.now }
{
    match octets {
        [] => false,
        [octet, ..] => 0 < *octet,
    }
}

fn exponent_of(octets: &[u8]) -> Option<u32>
    ensures { result ≡ spec.exponent_of octets.now }
{
    if octets.len() > EXPONENT_OCTETS {
        return None;
    }
    Some(big_endian(octets))
}

fn big_endian(octets: &[u8]) -> u32
    requires { length octets.now ≤ EXPONENT_OCTETS }
    ensures { result ≡ spec.big_endian octets.now }
{
    let mut number = [0u8; EXPONENT_OCTETS];
    let (_, last) = number.split_at_mut(EXPONENT_OCTETS - octets.len());
    last.copy_from_slice(octets);
    u32::from_be_bytes(number)
}
