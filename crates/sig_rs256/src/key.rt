//! Public keys.

ghost use Rattle.std.specs.Prelude.{◌≡◌, IfOk, IsTrue, option_copied};
ghost use Rattle.sig_rs256.specs.Keys as spec;

use sig_json::{Bytes, Copied, Memory, Same, Text, copy_optional};
use sig_number::is_modulus;
use std::alloc::Global;
use std::fmt;
use std::marker::Model;

/// The least exponent.
const EXPONENT_LEAST: u32 = 3;

/// A public key that signatures are checked under: a modulus of 2,048 to 4,096 bits, and an odd exponent.
#[derive(Drop)]
pub struct RsaKey {
    kid: Option<Text>,
    modulus: Bytes,
    exponent: u32,
}

impl Model for RsaKey {
    ghost use Rattle.std.specs.Prelude.{IsTrue};
    ghost use Rattle.sig_rs256.specs.Keys.{PublicKey, is_key};

    ghost Value = { PublicKey };

    ghost view = { λ k. record { kid = k.kid; modulus = k.modulus; exponent = k.exponent } };

    ghost invariant = { λ k. IsTrue (is_key k.modulus k.exponent) };
}

impl RsaKey {
    /// The key of a name, where it has one, the bytes of a modulus, the most significant first, and an exponent. None
    /// exactly where they are no key: the modulus has fewer than 2,048 bits, or more than 4,096, is even or begins with a
    /// zero byte, or the exponent is even or below 3.
    #[tactic(auto, unfolding(crate::specs::Keys::public_key_of))]
    pub fn of(
        alloc: Global,
        kid: Option<Text>,
        modulus: &[u8],
        exponent: u32,
    ) -> Result<Option<RsaKey>, Memory>
        ensures { IfOk result (λ key. key ≡ spec.public_key_of kid modulus.now exponent) }
    {
        if !is_key(modulus, exponent) {
            return Ok(None);
        }
        Ok(Some(RsaKey {
            kid,
            modulus: Bytes::of(alloc, modulus)?,
            exponent,
        }))
    }

    /// Its name, which a token's header gives as `kid` (RFC 7515, section 4.1.4), where it has one.
    pub fn kid(&self) -> Option<&Text>
        ensures { option_copied result ≡ self.now.kid }
    {
        self.kid.as_ref()
    }

    /// The bytes of its modulus, the most significant first.
    pub fn modulus(&self) -> &[u8]
        ensures same { result.now ≡ self.now.modulus }
        ensures key { IsTrue (spec.is_key self.now.modulus self.now.exponent) }
    {
        self.modulus.as_slice()
    }

    /// Its exponent.
    pub fn exponent(&self) -> u32
        ensures { result ≡ self.now.exponent }
    {
        self.exponent
    }

    /// An equal value.
    pub fn copy(&self, alloc: Global) -> Result<RsaKey, Memory>
        ensures { IfOk result (λ key. key ≡ self.now) }
    {
        Ok(RsaKey {
            kid: copy_optional(alloc, &self.kid)?,
            modulus: self.modulus.copy(alloc)?,
            exponent: self.exponent,
        })
    }
}

#[tactic(auto, unfolding(crate::specs::Keys::is_key))]
fn is_key(modulus: &[u8], exponent: u32) -> bool
    ensures { result ≡ spec.is_key modulus.now exponent }
{
    is_modulus(modulus) && is_exponent(exponent)
}

fn is_exponent(exponent: u32) -> bool
    ensures { result ≡ spec.is_exponent exponent }
{
    exponent >= EXPONENT_LEAST && exponent % 2 == 1
}

impl fmt::Debug for RsaKey {
    fn fmt<W: fmt::Write>(&self, f: &mut fmt::Formatter<W>) -> fmt::Result {
        let kid = &self.kid;
        let modulus = &self.modulus;
        let exponent = self.exponent;
        write!(
            f,
            "RsaKey {{ kid: {kid:?}, modulus: {modulus:?}, exponent: {exponent} }}"
        )
    }
}

impl Copied for RsaKey {
    fn copied(&self, alloc: Global) -> Result<RsaKey, Memory> {
        self.copy(alloc)
    }
}

impl Same for RsaKey {
    fn same(&self, other: &RsaKey) -> bool {
        self.kid.same(&other.kid)
            && self.modulus.same(&other.modulus)
            && self.exponent == other.exponent
    }
}
