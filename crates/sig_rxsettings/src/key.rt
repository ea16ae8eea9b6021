//! The keys of an issuer.

ghost use Rattle.std.specs.Prelude.{◌≡◌, IfOk, Result, is_some};
ghost use Rattle.serde_json.specs.View.{view};
ghost use Rattle.sig_json.specs.Answers.{Answers};
ghost use Rattle.sig_rxsettings.specs.Keys as spec;

use sig_json::{Memory, Text, Value, present};
use sig_jws::Key;
use sig_rs256::RsaKey;
use sig_set::rsa_key_of;
use sig_settings::{
    AnyText, KeyName, KeyObject, SettingKind, ValueFault, in_member, itself, member_in,
    optional_in, whole,
};
use std::alloc::Global;

/// A key of an issuer.
#[derive(Drop)]
pub enum IssuerKey {
    /// A secret that it signs under by HS256 (RFC 7518, section 3.2).
    Secret(Key),
    /// The public key of one that it signs with by RS256 (RFC 7518, section 3.3).
    Public(RsaKey),
}

/// An object of either kind: one with a member `kty` or `n` is read as a public key, and any other as a secret.
pub struct AnyKey;

impl SettingKind for AnyKey {
    type Kept = IssuerKey;

    ghost said = { spec.issuer_key_at };

    fn keep(alloc: Global, value: &Value) -> Result<IssuerKey, ValueFault> {
        if present(value, "kty") || present(value, "n") {
            return Ok(IssuerKey::Public(rsa_key_in(alloc, value)?));
        }
        Ok(IssuerKey::Secret(KeyObject::keep(alloc, value)?))
    }
}

// The public key of an object `{"kty", "alg", "kid", "n", "e"}` (RFC 7517, section 4; RFC 7518, section 6.3.1). Its members are
// read in this order, and a member `k` is told after `alg`.
fn rsa_key_in(alloc: Global, value: &Value) -> Result<RsaKey, ValueFault>
    ensures { Answers ValueFault.Memory result (spec.rsa_key_at (view value.now)) }
{
    rs256_key(alloc, value)?;
    let kid = optional_in::<KeyName>(alloc, value, "kid")?;
    let n = member_in::<ModulusWord>(alloc, value, "n")?;
    with_exponent(alloc, value, kid, &n)
}

// What the object is of, and that no secret stands in it.
fn rs256_key(alloc: Global, value: &Value) -> Result<(), ValueFault>
    ensures { Answers ValueFault.Memory result (spec.is_rs256_key (view value.now)) }
{
    whole(alloc, value)?;
    member_in::<RsaText>(alloc, value, "kty")?;
    member_in::<Rs256Text>(alloc, value, "alg")?;
    absent(alloc, value, "k")
}

fn absent(alloc: Global, value: &Value, name: &str) -> Result<(), ValueFault>
    ensures { Answers ValueFault.Memory result (spec.absent name.now (view value.now)) }
{
    if present(value, name) {
        return Err(in_member(alloc, name, itself(alloc)));
    }
    Ok(())
}

fn with_exponent(
    alloc: Global,
    value: &Value,
    kid: Option<Text>,
    n: &Text,
) -> Result<RsaKey, ValueFault>
    ensures { Answers ValueFault.Memory result (spec.with_exponent (view value.now) kid n.now) }
{
    let e = member_in::<AnyText>(alloc, value, "e")?;
    match rsa_key_of(alloc, kid, n.as_str(), e.as_str())? {
        Some(key) => Ok(key),
        None => Err(in_member(alloc, "e", itself(alloc))),
    }
}

struct RsaText;

impl SettingKind for RsaText {
    type Kept = Text;

    ghost use Rattle.sig_settings.specs.Texts.{text_where};

    ghost said = { text_where spec.is_rsa };

    fn keep(alloc: Global, value: &Value) -> Result<Text, ValueFault> {
        match value.as_str() {
            Some(text) if text == "RSA" => Ok(Text::of(alloc, text)?),
            _ => Err(itself(alloc)),
        }
    }
}

struct Rs256Text;

impl SettingKind for Rs256Text {
    type Kept = Text;

    ghost use Rattle.sig_settings.specs.Texts.{text_where};

    ghost said = { text_where spec.is_rs256 };

    fn keep(alloc: Global, value: &Value) -> Result<Text, ValueFault> {
        match value.as_str() {
            Some(text) if text == "RS256" => Ok(Text::of(alloc, text)?),
            _ => Err(itself(alloc)),
        }
    }
}

struct ModulusWord;

impl SettingKind for ModulusWord {
    type Kept = Text;

    ghost use Rattle.sig_settings.specs.Texts.{text_where};

    ghost said = { text_where spec.is_modulus_word };

    fn keep(alloc: Global, value: &Value) -> Result<Text, ValueFault> {
        match value.as_str() {
            Some(text) if is_modulus_word(alloc, text)? => Ok(Text::of(alloc, text)?),
            _ => Err(itself(alloc)),
        }
    }
}

// Whether the word makes a key with 65,537 for an exponent.
fn is_modulus_word(alloc: Global, word: &str) -> Result<bool, Memory>
    ensures { IfOk result (λ is. is ≡ spec.is_modulus_word word.now) }
{
    Ok(rsa_key_of(alloc, None, word, "AQAB")?.is_some())
}
