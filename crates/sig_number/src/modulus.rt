//! An odd number of 2,048 to 4,096 bits, made ready for powers.

ghost use Rattle.std.specs.Prelude.{◌≡◌, ◌↔◌, ◌+◌, ◌*◌, ◌%◌, ◌≤◌, ◌<◌, IfOk, IsTrue, length};
ghost use Rattle.sig_number.specs.Value.{value, weight};
ghost use Rattle.sig_number.specs.Modulus.{IsPower, number};
ghost use Rattle.sig_number.specs.Modulus as spec;

use crate::bytes::read_limbs;
use crate::inverse::negative_inverse;
use crate::montgomery::MOST_LIMBS;
use crate::power::{power, put_radix};
use crate::rows::{is_below, is_same};
use sig_json::Memory;
use std::alloc::Global;
use std::marker::Model;

/// Bytes of the shortest modulus.
pub const MODULUS_BYTES_LEAST: usize = 256;

/// Bytes of the longest modulus.
pub const MODULUS_BYTES_MOST: usize = 512;

/// Whether bytes, the most significant first, spell a modulus: an odd number of 2,048 to 4,096 bits, with no zero byte
/// before it.
pub fn is_modulus(bytes: &[u8]) -> bool
    ensures { result ≡ spec.is_modulus bytes.now }
{
    is_sized(bytes) && bytes[bytes.len() - 1] % 2 == 1
}

// Whether bytes spell a number of 2,048 to 4,096 bits, with no zero byte before it. The first byte of 256 has its first bit.
fn is_sized(bytes: &[u8]) -> bool
    ensures { result ≡ spec.is_sized bytes.now }
{
    if bytes.len() < MODULUS_BYTES_LEAST || bytes.len() > MODULUS_BYTES_MOST {
        return false;
    }
    if bytes.len() == MODULUS_BYTES_LEAST {
        bytes[0] >= 128
    } else {
        bytes[0] > 0
    }
}

/// A modulus, with the constants of Montgomery's multiplication. Contracts see its number, and how many bytes spell it.
#[derive(Drop)]
pub struct Modulus {
    limbs: Vec<u64>,
    radix: Vec<u64>,
    inverse: u64,
    bytes: usize,
}

impl Model for Modulus {
    ghost use Rattle.sig_number.specs.Value.{value};
    ghost use Rattle.sig_number.specs.Modulus.{Spelled};
    ghost use Rattle.sig_number.specs.Ready.{IsReady};

    ghost Value = { Spelled };

    ghost view = { λ m. record { number = value m.limbs.items; bytes = m.bytes } };

    ghost invariant = { λ m. IsReady m.limbs.items m.radix.items m.inverse m.bytes };
}

impl Modulus {
    /// The modulus that bytes spell, the most significant first.
    pub fn of(alloc: Global, bytes: &[u8]) -> Result<Modulus, Memory>
        requires { IsTrue (spec.is_modulus bytes.now) }
        ensures { IfOk result (λ modulus. modulus ≡ spec.spelled bytes.now) }
    {
        let limbs = limbs_of(alloc, bytes)?;
        let radix = radix_of(alloc, limbs.as_slice())?;
        let inverse = negative_inverse(limbs[0]);
        Ok(Modulus {
            limbs,
            radix,
            inverse,
            bytes: bytes.len(),
        })
    }

    /// Whether the base has as many bytes as the modulus, is below it, and its power modulo the modulus is the expected
    /// number. It takes no memory.
    pub fn power_is(&self, base: &[u8], exponent: u32, expected: &[u8]) -> bool
        requires exponent { 1 < exponent }
        requires odd { exponent % 2 ≡ 1 }
        requires length { length expected.now ≡ self.now.bytes }
        ensures { IsTrue result ↔ IsPower self.now base.now exponent expected.now }
    {
        if base.len() != expected.len() {
            return false;
        }
        let modulus = self.limbs.as_slice();
        let mut base_room = [0; MOST_LIMBS];
        let (base_limbs, _) = base_room.split_at_mut(modulus.len());
        read_limbs(base_limbs, base);
        if !is_below(base_limbs, modulus) {
            return false;
        }
        let mut power_room = [0; MOST_LIMBS];
        let (power_limbs, _) = power_room.split_at_mut(modulus.len());
        power(
            power_limbs,
            base_limbs,
            exponent,
            modulus,
            self.inverse,
            self.radix.as_slice(),
        );
        read_limbs(base_limbs, expected);
        is_same(power_limbs, base_limbs)
    }
}

fn limbs_of(alloc: Global, bytes: &[u8]) -> Result<Vec<u64>, Memory>
    ensures value { IfOk result (λ limbs. value limbs.items ≡ number bytes.now) }
    ensures room { IfOk result (λ limbs. length bytes.now ≤ 8 * length limbs.items) }
    ensures least { IfOk result (λ limbs. 8 * length limbs.items < length bytes.now + 8) }
{
    let mut limbs = vec![in alloc; 0u64; bytes.len().div_ceil(8)]?;
    read_limbs(&mut limbs, bytes);
    Ok(limbs)
}

// The square of the weight above the limbs, modulo their number.
fn radix_of(alloc: Global, limbs: &[u64]) -> Result<Vec<u64>, Memory>
    requires limbs { length limbs.now ≤ MOST_LIMBS }
    requires some { 0 < length limbs.now }
    requires modulus { 1 < value limbs.now }
    ensures radix { IfOk result (λ radix. value radix.items
        ≡ (weight (length limbs.now) * weight (length limbs.now)) % value limbs.now) }
    ensures length { IfOk result (λ radix. length radix.items ≡ length limbs.now) }
{
    let mut radix = vec![in alloc; 0u64; limbs.len()]?;
    put_radix(&mut radix, limbs);
    Ok(radix)
}
