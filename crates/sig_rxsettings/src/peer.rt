//! The transmitter whose tokens a receiver fetches.

ghost use Rattle.std.specs.Prelude.{◌≡◌, ◌⊎◌};
ghost use Rattle.serde_json.specs.View.{view};
ghost use Rattle.sig_json.specs.Answers.{Answers};
ghost use Rattle.sig_settings.specs.declared.fault.ValueFault.TheVariants.{Wrong};
ghost use Rattle.sig_settings.specs.Members.{told_of};
ghost use Rattle.sig_rxsettings.specs.Peers as spec;

use crate::principal::Bearer;
use sig_json::{Text, Value, present};
use sig_outside::Place;
use sig_rxnode::{Peer, Principal};
use sig_settings::{
    AnyText, BearerText, SettingKind, SettingsFault, ValueFault, found, in_member, itself,
    member_in, optional, told, was_read, whole,
};
use sig_stream::endpoint_of;
use sig_terms::Endpoint;
use std::alloc::Global;

/// The peer of settings with this reader and these principals, without its gateway yet. What is missing or wrong in it is told
/// by its path: `poll.url` also where the URL is one of `https` and there is no `tls_gateway`, and then `poll.bearer` where it
/// is the reader's or a principal's.
#[tactic(auto, unfolding(crate::specs::Peers::peer_in))]
pub fn peer_in(
    alloc: Global,
    settings: &Value,
    reader: &Text,
    principals: &[Principal],
) -> Result<Option<Peer>, SettingsFault>
    ensures { Answers SettingsFault.Memory result (spec.peer_in reader.now principals.now (view settings.now)) }
{
    let peer = optional::<PeerObject>(alloc, settings, "poll")?;
    is_reached(alloc, present(settings, "tls_gateway"), &peer)?;
    has_own_bearer(alloc, reader, principals, &peer)?;
    Ok(peer)
}

fn is_reached(alloc: Global, gateway: bool, peer: &Option<Peer>) -> Result<(), SettingsFault>
    ensures { Answers SettingsFault.Memory result (spec.is_reached gateway peer.now) }
{
    match peer {
        Some(peer) if peer.endpoint.secure && !gateway => Err(wrong_peer(alloc, "url")),
        _ => Ok(()),
    }
}

fn has_own_bearer(
    alloc: Global,
    reader: &Text,
    principals: &[Principal],
    peer: &Option<Peer>,
) -> Result<(), SettingsFault>
    ensures { Answers SettingsFault.Memory result (spec.has_own_bearer reader.now principals.now peer.now) }
{
    match peer {
        Some(peer) if was_read::<Bearer>(&peer.bearer, reader, principals) => {
            Err(wrong_peer(alloc, "bearer"))
        }
        _ => Ok(()),
    }
}

fn wrong_peer(alloc: Global, name: &str) -> SettingsFault
    ensures { (result ≡ SettingsFault.Memory) ⊎ (result ≡ told_of (Wrong (spec.peer_path name.now))) }
{
    let member = in_member(alloc, name, itself(alloc));
    told(alloc, in_member(alloc, "poll", member))
}

/// The peer with its gateway, where its endpoint is `https`.
pub fn with_gateway(peer: Option<Peer>, gateway: Option<Place>) -> Option<Peer>
    ensures { result ≡ spec.with_gateway gateway peer }
{
    match peer {
        Some(mut peer) if peer.endpoint.secure => {
            peer.gateway = gateway;
            Some(peer)
        }
        peer => peer,
    }
}

struct PeerObject;

impl SettingKind for PeerObject {
    type Kept = Peer;

    ghost said = { spec.peer_at };

    fn keep(alloc: Global, value: &Value) -> Result<Peer, ValueFault> {
        whole(alloc, value)?;
        let bearer = member_in::<BearerText>(alloc, value, "bearer")?;
        let iss = member_in::<AnyText>(alloc, value, "iss")?;
        let endpoint = member_in::<UrlText>(alloc, value, "url")?;
        Ok(Peer {
            endpoint,
            gateway: None,
            bearer,
            iss,
        })
    }
}

struct UrlText;

impl SettingKind for UrlText {
    type Kept = Endpoint;

    ghost said = { spec.endpoint_at };

    fn keep(alloc: Global, value: &Value) -> Result<Endpoint, ValueFault> {
        match value.as_str() {
            Some(url) => found(alloc, endpoint_of(alloc, url)?),
            None => Err(itself(alloc)),
        }
    }
}
