//! Powers modulo a large odd number.
//!
//! This layer stands on `sig_json` for its one refusal of memory, and on nothing else. A number is a list of limbs of
//! 64 bits, the least first (`specs/Value`). `Modulus` takes any odd number of 2,048 to 4,096 bits, as its bytes spell
//! it, and holds the constants of Montgomery's multiplication; `Modulus::power_is` raises a number below it to an odd
//! public exponent, and tells whether the power is the expected one.
//!
//!     bytes -> limbs -> form of Montgomery -> squares and products -> limbs -> whether they are the expected ones
//!
//! Promised: `is_modulus` is true exactly where bytes spell such a number with no zero byte before it; `power_is` is
//! true exactly where the base has as many bytes as the modulus, is below it, and its power over the natural numbers has
//! the expected remainder (`specs/Modulus`). Left out: secret exponents. The time that a power takes depends on the
//! numbers, so nothing here may be used with one.
#![tactic(auto)]

mod bytes;
mod inverse;
pub mod laws;
mod modulus;
mod montgomery;
mod power;
mod rows;
mod threads;

pub use modulus::{MODULUS_BYTES_LEAST, MODULUS_BYTES_MOST, Modulus, is_modulus};
