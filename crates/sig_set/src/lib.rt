//! Judging, reading and writing security event tokens (RFC 8417).
//!
//!     bearer -> length, compact form, header, payload -> issuer, key, audience
//!         -> identifier, time, no end, no second subject -> subject, events -> claims
//!
//! It stands on `sig_jws` for the compact form and the MAC, on `sig_rs256` for signatures, on `sig_subject` and `sig_event` for
//! what a token says, and on `sig_json` for values. The judgement is a list of checks over the whole text of which the first
//! that fails decides (`specs/Judgement`); what a payload says is a relation, and its reading is that relation
//! (`specs/Claims`); what is written of claims is that of `specs/Written`. What a valid token is stands in one record above
//! the checks (`IsValid` of `specs/Laws`), and what is judged valid is that. What is written of proper claims is judged valid
//! with these claims, and the claims of a token that is valid are read without its key (`laws`). An issuer has secrets for
//! HS256 and public keys for RS256, and the header's `alg` picks the list, so that no key is taken for one of another
//! algorithm. A receiver prepares the keys that it trusts once for all tokens (`PreparedTrust`), and keeps what the last
//! header spells for the next token, which mostly has the same (`LastHeader`). Left out: forging, and the secrecy of keys.
#![tactic(auto)]

mod audience;
mod content;
mod header;
mod judging;
mod last_header;
pub mod laws;
mod opening;
mod prepared;
mod reading;
mod refusal;
mod rsa_words;
mod signer;
mod threads;
mod trust;
mod values;
mod writing;

pub use judging::{judge, judge_prepared};
pub use last_header::LastHeader;
pub use prepared::{PreparedIssuer, PreparedTrust};
pub use reading::{ClaimsFault, claims_of, claims_of_next};
pub use refusal::{Code, Refusal, Spot};
pub use rsa_words::rsa_key_of;
pub use sig_event::Claims;
pub use trust::{Issuer, Trust};
pub use writing::{WriteFault, payload_text, signed_claims, write};
