//! The settings of `manage` as a whole.

ghost use Rattle.std.specs.Prelude.{◌≡◌, IfOk, codes};
ghost use Rattle.std.specs.List.{All};
ghost use Rattle.serde_json.specs.View.{view};
ghost use Rattle.sig_json.specs.Answers.{Answers};
ghost use Rattle.sig_declared.specs.Declarations.{AreDeclared, IsSaid};
ghost use Rattle.sig_declared.specs.Providers.{HasItsGateway};
ghost use Rattle.sig_declared.specs.Settings as spec;

use crate::Declared;
use crate::provider::{Provider, endpoint_in, provider_of};
use crate::stream::StreamList;
use sig_json::{Items, Value};
use sig_settings::{BearerText, PlaceText, SettingsFault, needed, optional, settings_of};
use std::alloc::Global;

/// What the settings of `manage` say.
#[derive(Drop)]
pub struct ManageSettings {
    /// The transmitter.
    pub provider: Provider,
    /// The streams that are declared of it.
    pub declared: Items<Declared>,
}

/// Reads the settings of `manage`; unknown members are passed over.
///
/// `Refused` tells the path of the first of these that is missing or wrong, in this order: `length`, at most 1,048,576 bytes;
/// `body`, a JSON object; `bearer`, a bearer token (RFC 6750, section 2.1); `url`, a URL that spells an endpoint with the path
/// `/`, one of `https` only where `tls_gateway` is there; `streams`, at most 16 objects with descriptions of their own; and
/// `tls_gateway`, a host, `:` and a port, which may be missing.
///
/// Each object says what is wanted of a stream, as the body of a request that creates one does (OpenID Shared Signals
/// Framework 1.0, section 8.1.1): `delivery`, `description` and `events_requested`, of which the description has to be there
/// and not be empty; and `status`, `enabled`, `paused` or `disabled` (section 8.1.2), the first where it isn't given.
#[tactic(auto, unfolding(crate::specs::Settings::manage_settings_of))]
pub fn manage_settings(alloc: Global, bytes: &[u8]) -> Result<ManageSettings, SettingsFault>
    ensures told { Answers SettingsFault.Memory result (spec.manage_settings_of bytes.now) }
    ensures declared { IfOk result (λ s. AreDeclared s.declared) }
    ensures said { IfOk result (λ s. All IsSaid s.declared) }
    ensures reached { IfOk result (λ s. HasItsGateway s.provider) }
    ensures path { IfOk result (λ s. s.provider.endpoint.path ≡ codes "/") }
{
    let settings = settings_of(alloc, bytes)?;
    manage_settings_in(alloc, &settings)
}

fn manage_settings_in(alloc: Global, settings: &Value) -> Result<ManageSettings, SettingsFault>
    ensures { Answers SettingsFault.Memory result (spec.manage_settings_in (view settings.now)) }
{
    let bearer = needed::<BearerText>(alloc, settings, "bearer")?;
    let endpoint = endpoint_in(alloc, settings)?;
    let declared = needed::<StreamList>(alloc, settings, "streams")?;
    let gateway = optional::<PlaceText>(alloc, settings, "tls_gateway")?;
    Ok(ManageSettings {
        provider: provider_of(bearer, endpoint, gateway),
        declared,
    })
}
