//! What a token's header tells: that it is a token, and by which key it is signed.

ghost use Rattle.std.specs.Prelude.{◌≡◌, IfOk, Some, option_copied, option_map};
ghost use Rattle.serde_json.specs.View.{view};
ghost use Rattle.sig_json.specs.Answers.{Answers};
ghost use Rattle.sig_json.specs.Json.{json_of};
ghost use Rattle.sig_set.specs.Checks.{outcome, passed};
ghost use Rattle.sig_set.specs.Header as spec;
ghost use Rattle.sig_set.specs.Judgement.{header_checks, key_checks};

use crate::refusal::refused;
use crate::signer::Signer;
use crate::values::value_of;
use crate::{Code, PreparedIssuer, Refusal, Spot};
use sig_json::{Text, Value, present, text_of};
use sig_jws::Compact;
use std::alloc::Global;

/// An algorithm that tokens are signed by (RFC 7518, section 3.1).
#[derive(Clone, Copy, Debug, PartialEq, Eq)]
pub enum Algorithm {
    /// HMAC with SHA-256, under a secret.
    Hs256,
    /// RSASSA-PKCS1-v1_5 with SHA-256, verified by a public key.
    Rs256,
}

/// The header that the bytes spell, where it is one of a token: `InvalidRequest` at the first of its checks that fails.
pub fn header_from(alloc: Global, bytes: &[u8]) -> Result<Value, Refusal>
    ensures checks { Answers Refusal.Memory (outcome result) (passed (header_checks (json_of bytes.now))) }
    ensures value { IfOk result (λ value. json_of bytes.now ≡ Some (view value)) }
{
    let Some(header) = value_of(alloc, bytes)? else {
        return Err(refused(Code::InvalidRequest, Spot::Header));
    };
    if !header.is_object() {
        return Err(refused(Code::InvalidRequest, Spot::Header));
    }
    if !has_token_type(&header) {
        return Err(refused(Code::InvalidRequest, Spot::Typ));
    }
    if present(&header, "crit") {
        return Err(refused(Code::InvalidRequest, Spot::Crit));
    }
    Ok(header)
}

// Whether the header's `typ` is that of a security event token.
fn has_token_type(header: &Value) -> bool
    ensures { result ≡ spec.has_token_type (Some (view header.now)) }
{
    match text_of(header, "typ") {
        None => false,
        Some(text) => is_token_type(text),
    }
}

fn is_token_type(text: &str) -> bool
    ensures { result ≡ spec.is_token_type text.now }
{
    text.eq_ignore_ascii_case("secevent+jwt")
        || text.eq_ignore_ascii_case("application/secevent+jwt")
}

/// That a key of the issuer signed the token, one of those for the header's algorithm: `InvalidKey` at `Alg`, `Kid` or
/// `Mac`.
pub fn verify(token: &Compact, header: &Value, issuer: &PreparedIssuer) -> Result<(), Refusal>
    ensures { result ≡ passed (key_checks (Some token.now) (Some (view header.now)) issuer.now.keys issuer.now.public_keys) }
{
    let Some(algorithm) = algorithm_of(header) else {
        return Err(refused(Code::InvalidKey, Spot::Alg));
    };
    let kid = header.get("kid");
    if !may_be_signed(algorithm, kid, issuer) {
        return Err(refused(Code::InvalidKey, Spot::Kid));
    }
    if !is_signed(algorithm, token, kid, issuer) {
        return Err(refused(Code::InvalidKey, Spot::Mac));
    }
    Ok(())
}

/// The algorithm that the header names.
fn algorithm_of(header: &Value) -> Option<Algorithm>
    ensures { result ≡ spec.algorithm_in (Some (view header.now)) }
{
    match text_of(header, "alg") {
        None => None,
        Some(name) => algorithm_named(name),
    }
}

fn algorithm_named(name: &str) -> Option<Algorithm>
    ensures { result ≡ spec.algorithm_named name.now }
{
    if name == "HS256" {
        return Some(Algorithm::Hs256);
    }
    if name == "RS256" {
        return Some(Algorithm::Rs256);
    }
    None
}

/// Whether some key for this algorithm may have signed a token whose header has this `kid`.
fn may_be_signed(algorithm: Algorithm, kid: Option<&Value>, issuer: &PreparedIssuer) -> bool
    ensures { result ≡ spec.may_be_signed (Some algorithm) (option_map view (option_copied kid.entry)) issuer.now.keys issuer.now.public_keys }
{
    match algorithm {
        Algorithm::Hs256 => has_candidate(kid, issuer.keys()),
        Algorithm::Rs256 => has_candidate(kid, issuer.public_keys()),
    }
}

/// Whether one of the keys for this algorithm that may have signed the token did.
fn is_signed(
    algorithm: Algorithm,
    token: &Compact,
    kid: Option<&Value>,
    issuer: &PreparedIssuer,
) -> bool
    ensures { result ≡ spec.is_signed (Some algorithm) (Some token.now) (option_map view (option_copied kid.entry)) issuer.now.keys issuer.now.public_keys }
{
    match algorithm {
        Algorithm::Hs256 => is_verified(token, kid, issuer.keys()),
        Algorithm::Rs256 => is_verified(token, kid, issuer.public_keys()),
    }
}

/// Whether some key may have signed a token whose header has this `kid`.
fn has_candidate<S: Signer>(kid: Option<&Value>, keys: &[S]) -> bool
    ensures { result ≡ spec.has_candidate S.name (option_map view (option_copied kid.entry)) keys.now }
{
    for key in keys {
        if is_candidate(kid, key.name()) {
            return true;
        }
    }
    false
}

/// Whether one of the keys that may have signed the token did.
fn is_verified<S: Signer>(token: &Compact, kid: Option<&Value>, keys: &[S]) -> bool
    ensures { result ≡ spec.is_verified S.name (S.signed (Some token.now)) (option_map view (option_copied kid.entry)) keys.now }
{
    for key in keys {
        if is_candidate(kid, key.name()) && key.signed(token) {
            return true;
        }
    }
    false
}

/// Whether a key of this name may have signed a token whose header has this `kid`.
fn is_candidate(kid: Option<&Value>, name: Option<&Text>) -> bool
    ensures { result ≡ spec.is_candidate (option_map view (option_copied kid.entry)) (option_copied name.entry) }
{
    match kid {
        None => true,
        Some(kid) => is_meant(kid, name),
    }
}

/// Whether this `kid` may mean a key of this name: a text means the key of that name and every key without one.
fn is_meant(kid: &Value, name: Option<&Text>) -> bool
    ensures { result ≡ spec.is_candidate (Some (view kid.now)) (option_copied name.entry) }
{
    let Some(wanted) = kid.as_str() else {
        return false;
    };
    match name {
        None => true,
        Some(name) => wanted == name.as_str(),
    }
}
