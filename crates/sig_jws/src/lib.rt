//! Signatures: HMAC-SHA-256 and the JWS compact serialization.
//!
//! This layer stands on `sig_json` for its values and its limits, on `sha2` for the hash and on `base64` for the
//! alphabet. `hmac` is the MAC of RFC 2104 with SHA-256 (`HS256` of RFC 7518, section 3.2), `sign` and `split` write
//! and read the three parts of RFC 7515, section 7.1, and `verifies` compares a token's MAC with the right one. Where many
//! tokens come under one key, a `PreparedKey` hashes the key's two blocks once for all of them.
//!
//! Promised: `hmac` and `sign` give exactly what the formulas say (`specs/Hmac`, `specs/Compact`); `split` refuses
//! exactly the texts that it names, and gives back what was signed (`laws`); `verifies` says yes exactly where the MAC
//! is right, and looks at all bytes of it. Left out: what the header and the payload say, and which key is to be taken,
//! which the caller decides; that a MAC cannot be forged; and that a comparison takes the same time for any MAC, of
//! which no contract speaks (the page of `mac` says more).
#![tactic(auto)]

mod compact;
mod key;
pub mod laws;
mod mac;
mod prepared;
mod threads;

pub use compact::{Compact, SplitFault, sign, split, verifies};
pub use key::{Key, key_of};
pub use mac::{MAC_BYTES, hmac};
pub use prepared::PreparedKey;
