//! What the transmitter tells in JSON.

ghost use Rattle.std.specs.Prelude.{◌≡◌, IfOk, OnOk, codes, option_map};
ghost use Rattle.serde_json.specs.Data.{number, put, string, unsigned};
ghost use Rattle.serde_json.specs.View.{members_view, view};
ghost use Rattle.sig_stream.specs.Configurations.{put_given};
ghost use Rattle.sig_txroutes.specs.Documents as spec;

use crate::route::{BodyCall, Route};
use serde_json::{Map, json};
use sig_event::Status;
use sig_json::{Listed, Memory, Text, Value, put_value};
use sig_stream::conf_json;
use sig_terms::{Defaults, Issued, Rules, Standing, StreamConf};
use std::alloc::Global;
use uuid::Uuid;

/// What the transmitter offers (OpenID Shared Signals Framework 1.0, section 7.1): its issuer, the addresses of its
/// routes, which begin with the rules' `base`, both ways of delivery, and which subjects a new stream has.
pub fn metadata(alloc: Global, rules: &Rules) -> Result<Value, Memory>
    ensures { IfOk result (λ v. view v ≡ spec.metadata rules.now) }
{
    let methods = methods_value(alloc)?;
    let mut members = addresses(alloc, rules.base.as_str())?;
    put_text(
        alloc,
        &mut members,
        "default_subjects",
        defaults_text(rules.defaults),
    )?;
    put_value(alloc, &mut members, "delivery_methods_supported", methods)?;
    put_text(alloc, &mut members, "issuer", rules.issuer.as_str())?;
    put_text(alloc, &mut members, "spec_version", "1_0")?;
    Ok(Value::Object(members))
}

// The members that name addresses, which begin with `base`.
fn addresses(alloc: Global, base: &str) -> Result<Map<String, Value>, Memory>
    ensures { IfOk result (λ ms. members_view ms.entries ≡ spec.addresses base.now) }
{
    let mut members = Map::new(alloc);
    let add = endpoint(alloc, base, Route::Body(BodyCall::Add))?;
    put_value(alloc, &mut members, "add_subject_endpoint", add)?;
    let configuration = endpoint(alloc, base, Route::Body(BodyCall::Create))?;
    put_value(alloc, &mut members, "configuration_endpoint", configuration)?;
    let remove = endpoint(alloc, base, Route::Body(BodyCall::Remove))?;
    put_value(alloc, &mut members, "remove_subject_endpoint", remove)?;
    let status = endpoint(alloc, base, Route::Body(BodyCall::SetStatus))?;
    put_value(alloc, &mut members, "status_endpoint", status)?;
    let verification = endpoint(alloc, base, Route::Body(BodyCall::Verify))?;
    put_value(alloc, &mut members, "verification_endpoint", verification)?;
    Ok(members)
}

// The address of a route.
fn endpoint(alloc: Global, base: &str, route: Route) -> Result<Value, Memory>
    ensures { IfOk result (λ v. view v ≡ spec.endpoint base.now route) }
{
    let mut url = String::from_str(alloc, base)?;
    url.push_str(route.row().path)?;
    Ok(Value::String(url))
}

// Push and poll (RFC 8935, RFC 8936).
fn methods_value(alloc: Global) -> Result<Value, Memory>
    ensures { IfOk result (λ v. view v ≡ spec.methods_data) }
{
    Ok(json!(in alloc; ["urn:ietf:rfc:8935", "urn:ietf:rfc:8936"])?)
}

fn put_text(
    alloc: Global,
    members: &mut Map<String, Value>,
    name: &str,
    text: &str,
) -> Result<(), Memory>
    ensures { OnOk result (members_view members.new.entries ≡ put name.now (string text.now) (members_view members.old.entries)) }
{
    let value = text_value(alloc, text)?;
    put_value(alloc, members, name, value)
}

fn defaults_text(defaults: Defaults) -> &'static str
    ensures { result.now ≡ spec.defaults_text defaults }
{
    match defaults {
        Defaults::All => "ALL",
        Defaults::None => "NONE",
    }
}

/// The configurations of all streams of a client.
pub fn confs_value(alloc: Global, confs: &[StreamConf], base: &Text) -> Result<Value, Memory>
    ensures { IfOk result (λ v. view v ≡ spec.confs_data confs.now base.now) }
{
    let mut values = Vec::new(alloc);
    for conf in confs {
        values.push(conf_json(alloc, conf, base)?)?;
    }
    Ok(Value::Array(values))
}

/// The status of a stream (OpenID Shared Signals Framework 1.0, section 8.1.2), with the reason that stands.
pub fn status_value(
    alloc: Global,
    stream: &Text,
    status: Status,
    reason: &Option<Text>,
) -> Result<Value, Memory>
    ensures { IfOk result (λ v. view v ≡ spec.status_data stream.now status reason.now) }
{
    let status = text_value(alloc, status.as_str())?;
    let stream = text_value(alloc, stream.as_str())?;
    let mut members = Map::new(alloc);
    put_value(alloc, &mut members, "status", status)?;
    put_value(alloc, &mut members, "stream_id", stream)?;
    put_reason(alloc, &mut members, reason)?;
    Ok(Value::Object(members))
}

fn put_reason(
    alloc: Global,
    members: &mut Map<String, Value>,
    reason: &Option<Text>,
) -> Result<(), Memory>
    ensures { OnOk result (members_view members.new.entries
        ≡ put_given (codes "reason") (option_map (λ t. string t) reason.now) (members_view members.old.entries)) }
{
    let Some(reason) = reason else {
        return Ok(());
    };
    let reason = text_value(alloc, reason.as_str())?;
    put_value(alloc, members, "reason", reason)
}

/// The tokens that a publication made, each with its identifier and the name of its stream.
pub fn published_value(
    alloc: Global,
    store_id: [u8; 16],
    tokens: &[Issued],
) -> Result<Value, Memory>
    ensures { IfOk result (λ v. view v ≡ spec.published_data store_id tokens.now) }
{
    let tokens = tokens_value(alloc, store_id, tokens)?;
    let mut members = Map::new(alloc);
    put_value(alloc, &mut members, "tokens", tokens)?;
    Ok(Value::Object(members))
}

fn tokens_value(alloc: Global, store_id: [u8; 16], tokens: &[Issued]) -> Result<Value, Memory>
    ensures { IfOk result (λ v. view v ≡ spec.tokens_data store_id tokens.now) }
{
    let mut values = Vec::new(alloc);
    for token in tokens {
        values.push(token_value(alloc, store_id, token)?)?;
    }
    Ok(Value::Array(values))
}

fn token_value(alloc: Global, store_id: [u8; 16], token: &Issued) -> Result<Value, Memory>
    ensures { IfOk result (λ v. view v ≡ spec.token_data store_id token.now) }
{
    let jti = token_id(alloc, store_id, token)?;
    Ok(json!(in alloc; {"jti": jti.as_str(), "stream_id": token.stream.as_str()})?)
}

// A token's identifier: the store's, the stream's name and its number, with dots between.
fn token_id(alloc: Global, store_id: [u8; 16], token: &Issued) -> Result<Text, Memory>
    ensures { IfOk result (λ t. t ≡ spec.token_id store_id token.now) }
{
    let mut buffer = Uuid::encode_buffer();
    let store = Uuid::from_bytes(store_id)
        .hyphenated()
        .encode_lower(&mut buffer);
    let store: &str = store;
    let stream = token.stream.as_str();
    let number = token.number;
    Ok(Text::from_string(format!(in alloc; "{store}.{stream}.{number}")?))
}

/// A page of how streams stand, with the place behind it.
pub fn standings_value(alloc: Global, next: u64, standings: &[Standing]) -> Result<Value, Memory>
    ensures { IfOk result (λ v. view v ≡ spec.standings_data next standings.now) }
{
    let streams = streams_value(alloc, standings)?;
    let mut members = Map::new(alloc);
    put_value(alloc, &mut members, "next", Value::from(next))?;
    put_value(alloc, &mut members, "streams", streams)?;
    Ok(Value::Object(members))
}

fn streams_value(alloc: Global, standings: &[Standing]) -> Result<Value, Memory>
    ensures { IfOk result (λ v. view v ≡ spec.streams_data standings.now) }
{
    let mut values = Vec::new(alloc);
    for standing in standings {
        values.push(standing_value(alloc, standing)?)?;
    }
    Ok(Value::Array(values))
}

fn standing_value(alloc: Global, standing: &Standing) -> Result<Value, Memory>
    ensures { IfOk result (λ v. view v ≡ spec.standing_data standing.now) }
{
    let members = standing_members(alloc, standing)?;
    Ok(Value::Object(members))
}

// How a stream stands, as the members of an object.
pub(crate) fn standing_members(
    alloc: Global,
    standing: &Standing,
) -> Result<Map<String, Value>, Memory>
    ensures { IfOk result (λ ms. members_view ms.entries ≡ spec.standing_members standing.now) }
{
    let status = text_value(alloc, standing.status.as_str())?;
    let stream = text_value(alloc, standing.stream.as_str())?;
    let mut members = Map::new(alloc);
    put_value(alloc, &mut members, "made", Value::from(standing.made))?;
    put_value(alloc, &mut members, "owed", Value::from(standing.owed))?;
    put_value(alloc, &mut members, "status", status)?;
    put_value(alloc, &mut members, "stream_id", stream)?;
    put_oldest(alloc, &mut members, standing.oldest)?;
    Ok(members)
}

fn put_oldest(
    alloc: Global,
    members: &mut Map<String, Value>,
    oldest: Option<u64>,
) -> Result<(), Memory>
    ensures { OnOk result (members_view members.new.entries
        ≡ put_given (codes "oldest") (option_map (λ t. number (unsigned t)) oldest) (members_view members.old.entries)) }
{
    match oldest {
        Some(time) => put_value(alloc, members, "oldest", Value::from(time)),
        None => Ok(()),
    }
}

pub(crate) fn text_value(alloc: Global, text: &str) -> Result<Value, Memory>
    ensures { IfOk result (λ v. view v ≡ string text.now) }
{
    Ok(Value::String(String::from_str(alloc, text)?))
}
