//! Signatures of RSASSA-PKCS1-v1_5 with SHA-256 (`RS256` of RFC 7518, section 3.3): public keys, and what they verify.
//!
//! This layer stands on `sig_json` for its values, on `sha2` for the hash and on `sig_number` for the power. An `RsaKey` is
//! a public key that was looked at once: a modulus of 2,048 to 4,096 bits, and an odd exponent. A `PreparedRsaKey` holds
//! beside it what the power needs, once for all signatures.
//!
//!     message -> SHA-256 -> encoded message ----\
//!                                                are they one number?
//!     signature -> number below the modulus -> its power /
//!
//! Promised: a key is made exactly where modulus and exponent are one (`specs/Keys`); `verifies` says yes exactly where
//! RFC 8017, section 8.2.2, finds the signature valid: its length, its number below the modulus, and its power, which is
//! the number of the encoded message (`specs/Signatures`, `laws`). Left out: secret keys, so nothing here signs; that a
//! modulus is the product of two primes; that a signature cannot be forged; and which key is to be taken, which the caller
//! decides.
#![tactic(auto)]

mod encoding;
mod key;
pub mod laws;
mod prepared;
mod threads;

pub use key::RsaKey;
pub use prepared::PreparedRsaKey;
