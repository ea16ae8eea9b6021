//! The transmitter whose streams are managed.

ghost use Rattle.std.specs.Prelude.{◌≡◌, IfOk};
ghost use Rattle.serde_json.specs.View.{view};
ghost use Rattle.sig_json.specs.Answers.{Answers};
ghost use Rattle.sig_declared.specs.Providers as spec;

use sig_json::{Memory, Text, Value, present};
use sig_outside::Place;
use sig_settings::{
    SettingKind, SettingsFault, ValueFault, found, in_member, itself, needed, told,
};
use sig_stream::endpoint_of;
use sig_terms::Endpoint;
use std::alloc::Global;

/// A transmitter whose streams are managed.
#[derive(Drop)]
pub struct Provider {
    /// Where it answers: what a URL with the path `/` says.
    pub endpoint: Endpoint,
    /// The gateway that is dialled in its place, where the endpoint is `https`.
    pub gateway: Option<Place>,
    /// The bearer token by which it knows its client (RFC 6750, section 2.1).
    pub bearer: Text,
}

/// The endpoint at `url`. It is told there also where it is one of `https` and there is no `tls_gateway`.
#[tactic(auto, unfolding(crate::specs::Providers::endpoint_in))]
pub fn endpoint_in(alloc: Global, settings: &Value) -> Result<Endpoint, SettingsFault>
    ensures { Answers SettingsFault.Memory result (spec.endpoint_in (view settings.now)) }
{
    let endpoint = needed::<RootUrl>(alloc, settings, "url")?;
    is_reached(alloc, present(settings, "tls_gateway"), &endpoint)?;
    Ok(endpoint)
}

fn is_reached(alloc: Global, gateway: bool, endpoint: &Endpoint) -> Result<(), SettingsFault>
    ensures { Answers SettingsFault.Memory result (spec.is_reached gateway endpoint.now) }
{
    if endpoint.secure && !gateway {
        return Err(told(alloc, in_member(alloc, "url", itself(alloc))));
    }
    Ok(())
}

/// The transmitter with its gateway, where its endpoint is `https`.
pub fn provider_of(bearer: Text, endpoint: Endpoint, gateway: Option<Place>) -> Provider
    ensures { result ≡ spec.provider_of bearer endpoint gateway }
{
    let gateway = if endpoint.secure { gateway } else { None };
    Provider {
        endpoint,
        gateway,
        bearer,
    }
}

struct RootUrl;

impl SettingKind for RootUrl {
    type Kept = Endpoint;

    ghost said = { spec.root_at };

    fn keep(alloc: Global, value: &Value) -> Result<Endpoint, ValueFault> {
        match value.as_str() {
            Some(url) => found(alloc, root_of(alloc, url)?),
            None => Err(itself(alloc)),
        }
    }
}

// The endpoint that a URL with the path `/` spells.
fn root_of(alloc: Global, url: &str) -> Result<Option<Endpoint>, Memory>
    ensures { IfOk result (λ e. e ≡ spec.root_of url.now) }
{
    match endpoint_of(alloc, url)? {
        Some(endpoint) if endpoint.path.as_str() == "/" => Ok(Some(endpoint)),
        _ => Ok(None),
    }
}
