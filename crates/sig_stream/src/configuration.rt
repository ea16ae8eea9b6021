//! The configuration of a stream as it is written (OpenID Shared Signals Framework 1.0, section 8.1.1).

ghost use Rattle.std.specs.Prelude.{◌≡◌, IfOk, OnOk, option_map};
ghost use Rattle.serde_json.specs.Data.{string};
ghost use Rattle.serde_json.specs.View.{members_view, view};
ghost use Rattle.sig_stream.specs.Configurations as spec;

use serde_json::{Map, json};
use sig_event::EventType;
use sig_json::{Items, Listed, Memory, Text, Value, put_value};
use sig_terms::{Delivery, StreamConf, is_requested};
use std::alloc::Global;

/// The object of a stream's configuration, whose addresses begin with `base`.
///
/// It has `aud`, a text where there is one and else a list; `delivery`; `description`, where it is given;
/// `events_delivered`, the supported types that are requested, in supported order, and all of them where nothing was
/// requested; `events_requested`, where it is given; `events_supported`, the 22 types that transmitters publish; `iss`;
/// `min_verification_interval`, in seconds; and `stream_id`. The delivery has its `method` and `endpoint_url`, which for
/// poll is `base`, `/poll/` and the stream's name, and for push the `authorization_header`, where it is given.
pub fn conf_json(alloc: Global, conf: &StreamConf, base: &Text) -> Result<Value, Memory>
    ensures { IfOk result (λ v. view v ≡ spec.conf_data conf.now base.now) }
{
    let mut members = fixed_members(alloc, conf, base)?;
    put_given_texts(alloc, &mut members, "events_requested", &conf.requested)?;
    put_given(alloc, &mut members, "description", &conf.description)?;
    Ok(Value::Object(members))
}

// The members that each configuration has.
fn fixed_members(
    alloc: Global,
    conf: &StreamConf,
    base: &Text,
) -> Result<Map<String, Value>, Memory>
    ensures { IfOk result (λ ms. members_view ms.entries ≡ spec.fixed_members conf.now base.now) }
{
    let mut members = Map::new(alloc);
    let audience = audience_value(alloc, conf.aud.as_slice())?;
    put_value(alloc, &mut members, "aud", audience)?;
    let delivery = delivery_value(alloc, conf, base)?;
    put_value(alloc, &mut members, "delivery", delivery)?;
    let delivered = delivered_value(alloc, &conf.requested)?;
    put_value(alloc, &mut members, "events_delivered", delivered)?;
    let supported = supported_value(alloc)?;
    put_value(alloc, &mut members, "events_supported", supported)?;
    let iss = text_value(alloc, conf.iss.as_str())?;
    put_value(alloc, &mut members, "iss", iss)?;
    let interval = Value::from(conf.interval);
    put_value(alloc, &mut members, "min_verification_interval", interval)?;
    let stream = text_value(alloc, conf.stream.as_str())?;
    put_value(alloc, &mut members, "stream_id", stream)?;
    Ok(members)
}

fn put_given(
    alloc: Global,
    members: &mut Map<String, Value>,
    name: &str,
    text: &Option<Text>,
) -> Result<(), Memory>
    ensures { OnOk result (members_view members.new.entries
        ≡ spec.put_given name.now (option_map (λ t. string t) text.now) (members_view members.old.entries)) }
{
    let Some(text) = text else {
        return Ok(());
    };
    let value = text_value(alloc, text.as_str())?;
    put_value(alloc, members, name, value)
}

fn put_given_texts(
    alloc: Global,
    members: &mut Map<String, Value>,
    name: &str,
    texts: &Option<Items<Text>>,
) -> Result<(), Memory>
    ensures { OnOk result (members_view members.new.entries
        ≡ spec.put_given name.now (option_map spec.texts_data texts.now) (members_view members.old.entries)) }
{
    let Some(texts) = texts else {
        return Ok(());
    };
    let value = texts_value(alloc, texts.as_slice())?;
    put_value(alloc, members, name, value)
}

fn audience_value(alloc: Global, audience: &[Text]) -> Result<Value, Memory>
    ensures { IfOk result (λ v. view v ≡ spec.audience_data audience.now) }
{
    match audience {
        [text] => text_value(alloc, text.as_str()),
        texts => texts_value(alloc, texts),
    }
}

fn delivery_value(alloc: Global, conf: &StreamConf, base: &Text) -> Result<Value, Memory>
    ensures { IfOk result (λ v. view v ≡ spec.delivery_data conf.now.delivery base.now conf.now.stream) }
{
    match &conf.delivery {
        Delivery::Poll => poll_value(alloc, base.as_str(), conf.stream.as_str()),
        Delivery::Push {
            url,
            authorization,
            ..
        } => push_value(alloc, url.as_str(), authorization),
    }
}

fn poll_value(alloc: Global, base: &str, stream: &str) -> Result<Value, Memory>
    ensures { IfOk result (λ v. view v ≡ spec.poll_data base.now stream.now) }
{
    let url = poll_url(alloc, base, stream)?;
    Ok(json!(in alloc; {"endpoint_url": url.as_str(), "method": "urn:ietf:rfc:8936"})?)
}

// Where the receiver of a stream asks for its tokens.
fn poll_url(alloc: Global, base: &str, stream: &str) -> Result<Text, Memory>
    ensures { IfOk result (λ url. url ≡ spec.poll_url base.now stream.now) }
{
    let mut url = String::from_str(alloc, base)?;
    url.push_str("/poll/")?;
    url.push_str(stream)?;
    Ok(Text::from_string(url))
}

fn push_value(alloc: Global, url: &str, authorization: &Option<Text>) -> Result<Value, Memory>
    ensures { IfOk result (λ v. view v ≡ spec.push_data url.now authorization.now) }
{
    let url = text_value(alloc, url)?;
    let method = text_value(alloc, "urn:ietf:rfc:8935")?;
    let mut members = Map::new(alloc);
    put_value(alloc, &mut members, "endpoint_url", url)?;
    put_value(alloc, &mut members, "method", method)?;
    put_given(alloc, &mut members, "authorization_header", authorization)?;
    Ok(Value::Object(members))
}

fn supported_value(alloc: Global) -> Result<Value, Memory>
    ensures { IfOk result (λ v. view v ≡ spec.texts_data spec.supported) }
{
    let mut values = Vec::new(alloc);
    for event_type in EventType::published() {
        values.push(text_value(alloc, event_type.as_str())?)?;
    }
    Ok(Value::Array(values))
}

fn delivered_value(alloc: Global, requested: &Option<Items<Text>>) -> Result<Value, Memory>
    ensures { IfOk result (λ v. view v ≡ spec.texts_data (spec.delivered requested.now)) }
{
    let mut values = Vec::new(alloc);
    for event_type in EventType::published() {
        let uri = event_type.as_str();
        if is_requested(uri, requested) {
            values.push(text_value(alloc, uri)?)?;
        }
    }
    Ok(Value::Array(values))
}

fn texts_value(alloc: Global, texts: &[Text]) -> Result<Value, Memory>
    ensures { IfOk result (λ v. view v ≡ spec.texts_data texts.now) }
{
    let mut values = Vec::new(alloc);
    for text in texts {
        values.push(text_value(alloc, text.as_str())?)?;
    }
    Ok(Value::Array(values))
}

fn text_value(alloc: Global, text: &str) -> Result<Value, Memory>
    ensures { IfOk result (λ v. view v ≡ string text.now) }
{
    Ok(Value::String(String::from_str(alloc, text)?))
}
