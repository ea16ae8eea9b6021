//! A transmitter's settings as a whole.

ghost use Rattle.std.specs.Prelude.{IfOk};
ghost use Rattle.serde_json.specs.View.{view};
ghost use Rattle.sig_json.specs.Answers.{Answers};
ghost use Rattle.sig_calls.specs.Proper.{IsProperRules};
ghost use Rattle.sig_txsettings.specs.Settings as spec;

use crate::client::clients_in;
use crate::value::{DefaultSubjects, Interval};
use sig_json::{Text, Value};
use sig_outside::Place;
use sig_settings::{
    AnyText, BearerText, FilledText, KeyObject, PlaceText, SettingsFault, needed, optional,
    settings_of,
};
use sig_terms::Rules;
use std::alloc::Global;

/// What the settings of a transmitter say.
#[derive(Drop)]
pub struct TxSettings {
    /// What it answers and signs by.
    pub rules: Rules,
    /// Where it listens.
    pub listen: Place,
}

/// Reads the settings of a transmitter; unknown members are passed over.
///
/// `Refused` tells the path of the first of these that is missing or wrong, in this order: `length`, at most 1,048,576 bytes;
/// `body`, a JSON object; `issuer`, a text that isn't empty; `base`, a text; `listen`, a host, `:` and a port; `operator`, a
/// bearer token (RFC 6750, section 2.1); `default_subjects`, `ALL` or `NONE`; `min_verification_interval`, a whole number
/// from 0 to 86,400; `key`, an object `{"k", "kid"}`; `clients`, at most 64 objects `{"aud", "bearer", "name"}` whose
/// audience is one or more texts, with names of their own, and with bearers that differ from the operator's and from each
/// other; and `tls_gateway`, a host, `:` and a port, which may be missing.
#[tactic(auto, unfolding(crate::specs::Settings::tx_settings_of))]
pub fn tx_settings(alloc: Global, bytes: &[u8]) -> Result<TxSettings, SettingsFault>
    ensures told { Answers SettingsFault.Memory result (spec.tx_settings_of bytes.now) }
    ensures proper { IfOk result (λ s. IsProperRules s.rules) }
{
    let settings = settings_of(alloc, bytes)?;
    tx_settings_in(alloc, &settings)
}

fn tx_settings_in(alloc: Global, settings: &Value) -> Result<TxSettings, SettingsFault>
    ensures { Answers SettingsFault.Memory result (spec.tx_settings_in (view settings.now)) }
{
    let issuer = needed::<FilledText>(alloc, settings, "issuer")?;
    let base = needed::<AnyText>(alloc, settings, "base")?;
    let listen = needed::<PlaceText>(alloc, settings, "listen")?;
    let rules = rules_in(alloc, settings, issuer, base)?;
    Ok(TxSettings { rules, listen })
}

// The rules of a transmitter with this issuer and this prefix of its addresses.
fn rules_in(
    alloc: Global,
    settings: &Value,
    issuer: Text,
    base: Text,
) -> Result<Rules, SettingsFault>
    ensures { Answers SettingsFault.Memory result (spec.rules_in issuer base (view settings.now)) }
{
    let operator = needed::<BearerText>(alloc, settings, "operator")?;
    let defaults = needed::<DefaultSubjects>(alloc, settings, "default_subjects")?;
    let interval = needed::<Interval>(alloc, settings, "min_verification_interval")?;
    let key = needed::<KeyObject>(alloc, settings, "key")?;
    let clients = clients_in(alloc, settings, &operator)?;
    let gateway = optional::<PlaceText>(alloc, settings, "tls_gateway")?;
    Ok(Rules {
        issuer,
        base,
        defaults,
        interval,
        gateway,
        operator,
        clients,
        key,
    })
}
