//! A receiver's settings as a whole.

ghost use Rattle.std.specs.Prelude.{IfOk, IfSome};
ghost use Rattle.serde_json.specs.View.{view};
ghost use Rattle.sig_json.specs.Answers.{Answers};
ghost use Rattle.sig_rxsettings.specs.Peers.{HasItsGateway};
ghost use Rattle.sig_rxsettings.specs.Settings as spec;

use crate::issuer::IssuerList;
use crate::peer::{peer_in, with_gateway};
use crate::principal::principals_in;
use sig_json::Value;
use sig_outside::Place;
use sig_rxnode::RxRules;
use sig_set::Trust;
use sig_settings::{AnyText, BearerText, PlaceText, SettingsFault, needed, optional, settings_of};
use std::alloc::Global;

/// What the settings of a receiver say.
#[derive(Drop)]
pub struct RxSettings {
    /// What it judges and answers by.
    pub rules: RxRules,
    /// Where it listens.
    pub listen: Place,
}

/// Reads the settings of a receiver; unknown members are passed over.
///
/// `Refused` tells the path of the first of these that is missing or wrong, in this order: `length`, at most 1,048,576 bytes;
/// `body`, a JSON object; `audience`, a text; `listen`, a host, `:` and a port; `reader`, a bearer token (RFC 6750, section
/// 2.1); `issuers`, at most 64 objects `{"iss", "keys"}` with names of their own and one to four keys, each a secret
/// `{"k", "kid"}` or a public key `{"kty", "alg", "kid", "n", "e"}` (RFC 7518, section 6.3.1); `principals`, at most 64 objects
/// `{"bearer", "iss"}` with bearers that differ from the reader's and from each other; `poll`, an object
/// `{"bearer", "iss", "url"}` whose URL spells an endpoint, one of `https` only where `tls_gateway` is there, and whose bearer
/// is none of those; and `tls_gateway`, a host, `:` and a port. The last two may be missing.
#[tactic(auto, unfolding(crate::specs::Settings::rx_settings_of))]
pub fn rx_settings(alloc: Global, bytes: &[u8]) -> Result<RxSettings, SettingsFault>
    ensures told { Answers SettingsFault.Memory result (spec.rx_settings_of bytes.now) }
    ensures reached { IfOk result (λ s. IfSome s.rules.peer HasItsGateway) }
{
    let settings = settings_of(alloc, bytes)?;
    rx_settings_in(alloc, &settings)
}

fn rx_settings_in(alloc: Global, settings: &Value) -> Result<RxSettings, SettingsFault>
    ensures { Answers SettingsFault.Memory result (spec.rx_settings_in (view settings.now)) }
{
    let audience = needed::<AnyText>(alloc, settings, "audience")?;
    let listen = needed::<PlaceText>(alloc, settings, "listen")?;
    let reader = needed::<BearerText>(alloc, settings, "reader")?;
    let issuers = needed::<IssuerList>(alloc, settings, "issuers")?;
    let principals = principals_in(alloc, settings, &reader)?;
    let peer = peer_in(alloc, settings, &reader, principals.as_slice())?;
    let gateway = optional::<PlaceText>(alloc, settings, "tls_gateway")?;
    let rules = RxRules {
        trust: Trust { audience, issuers },
        principals,
        reader,
        peer: with_gateway(peer, gateway),
    };
    Ok(RxSettings { rules, listen })
}
