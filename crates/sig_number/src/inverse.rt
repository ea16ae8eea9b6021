//! What clears a limb: the negative inverse of an odd number, modulo 2^64.

ghost use Rattle.std.specs.Prelude.{◌≡◌, ℕ, ◌+◌, ◌*◌, ◌^◌, ◌%◌};

/// The number whose product with an odd one is one below a multiple of 2^64.
pub(crate) fn negative_inverse(odd: u64) -> u64
    requires { odd % 2 ≡ 1 }
    ensures { (odd * result + 1) % 2 ^ 64 ≡ 0 }
{
    let bits_2 = closer(odd, 1);
    let bits_4 = closer(odd, bits_2);
    let bits_8 = closer(odd, bits_4);
    let bits_16 = closer(odd, bits_8);
    let bits_32 = closer(odd, bits_16);
    closer(odd, bits_32)
}

// From an inverse modulo p to one modulo the square of p, where that divides 2^64 (Newton's step).
fn closer(odd: u64, inverse: u64) -> u64
    ensures { (p e : ℕ) → p * p * e ≡ 2 ^ 64 → (odd * inverse + 1) % p ≡ 0
        → (odd * result + 1) % (p * p) ≡ 0 }
{
    inverse.wrapping_mul(odd.wrapping_mul(inverse).wrapping_add(2))
}
