//! The issuers that a receiver trusts.

ghost use Rattle.std.specs.Prelude.{◌≡◌, IfOk};
ghost use Rattle.serde_json.specs.View.{view};
ghost use Rattle.sig_rxsettings.specs.Issuers as spec;

use crate::key::{AnyKey, IssuerKey};
use sig_json::limits::{ISSUERS, KEYS_PER_ISSUER};
use sig_json::{Items, Memory, Text, Value};
use sig_jws::Key;
use sig_rs256::RsaKey;
use sig_set::Issuer;
use sig_settings::{
    AnyText, ListOf, SettingKind, TextOf, ValueFault, each_once, itself, member_in, whole,
};
use std::alloc::Global;

/// At most 64 issuers with names of their own.
pub struct IssuerList;

impl SettingKind for IssuerList {
    type Kept = Items<Issuer>;

    ghost said = { spec.issuers_at };

    fn keep(alloc: Global, value: &Value) -> Result<Items<Issuer>, ValueFault> {
        let issuers = ListOf::<IssuerObject>::keep(alloc, value)?;
        if !are_apart(issuers.as_slice()) {
            return Err(itself(alloc));
        }
        Ok(issuers)
    }
}

fn are_apart(issuers: &[Issuer]) -> bool
    ensures { result ≡ spec.are_apart issuers.now }
{
    issuers.len() <= ISSUERS && each_once::<Name>(issuers)
}

struct Name;

impl TextOf for Name {
    type Item = Issuer;

    ghost text = { spec.name_of };

    fn text_of(item: &Issuer) -> &Text {
        &item.iss
    }
}

struct IssuerObject;

impl SettingKind for IssuerObject {
    type Kept = Issuer;

    ghost said = { spec.issuer_at };

    fn keep(alloc: Global, value: &Value) -> Result<Issuer, ValueFault> {
        whole(alloc, value)?;
        let iss = member_in::<AnyText>(alloc, value, "iss")?;
        let keys = member_in::<KeyList>(alloc, value, "keys")?;
        Ok(with_keys(alloc, iss, keys)?)
    }
}

// The issuer of this name, with each kind of keys in a list of its own.
fn with_keys(alloc: Global, iss: Text, keys: Items<IssuerKey>) -> Result<Issuer, Memory>
    ensures { IfOk result (λ issuer. issuer ≡ spec.with_keys iss keys) }
{
    Ok(Issuer {
        iss,
        keys: secrets_in(alloc, keys.as_slice())?,
        public_keys: publics_in(alloc, keys.as_slice())?,
    })
}

fn secrets_in(alloc: Global, keys: &[IssuerKey]) -> Result<Items<Key>, Memory>
    ensures { IfOk result (λ secrets. secrets ≡ spec.secrets_in keys.now) }
{
    let mut secrets = Vec::new(alloc);
    for key in keys {
        match key {
            IssuerKey::Secret(key) => secrets.push(key.copy(alloc)?)?,
            IssuerKey::Public(_) => {}
        }
    }
    Ok(Items::of(secrets))
}

fn publics_in(alloc: Global, keys: &[IssuerKey]) -> Result<Items<RsaKey>, Memory>
    ensures { IfOk result (λ publics. publics ≡ spec.publics_in keys.now) }
{
    let mut publics = Vec::new(alloc);
    for key in keys {
        match key {
            IssuerKey::Secret(_) => {}
            IssuerKey::Public(key) => publics.push(key.copy(alloc)?)?,
        }
    }
    Ok(Items::of(publics))
}

struct KeyList;

impl SettingKind for KeyList {
    type Kept = Items<IssuerKey>;

    ghost said = { spec.keys_at };

    fn keep(alloc: Global, value: &Value) -> Result<Items<IssuerKey>, ValueFault> {
        let keys = ListOf::<AnyKey>::keep(alloc, value)?;
        if !are_some(keys.as_slice()) {
            return Err(itself(alloc));
        }
        Ok(keys)
    }
}

fn are_some(keys: &[IssuerKey]) -> bool
    ensures { result ≡ spec.are_some keys.now }
{
    !keys.is_empty() && keys.len() <= KEYS_PER_ISSUER
}
