//! What is written of wants and statuses.

ghost use Rattle.std.specs.Prelude.{◌≡◌, IfOk, OnOk, codes, option_map};
ghost use Rattle.serde_json.specs.Data.{put, string};
ghost use Rattle.serde_json.specs.View.{members_view, view};
ghost use Rattle.sig_stream.specs.Configurations.{push_data, put_given, texts_data};
ghost use Rattle.sig_manager.specs.Asking as spec;

use serde_json::{Map, json};
use sig_event::Status;
use sig_json::{Items, Listed, Memory, Payload, Text, Value, put_value};
use sig_terms::{Delivery, Want};
use std::alloc::Global;

/// The object of a want.
pub fn want_json(alloc: Global, want: &Want) -> Result<Value, Memory>
    ensures { IfOk result (λ v. view v ≡ spec.want_data want.now) }
{
    Ok(Value::Object(want_members(alloc, want)?))
}

/// The object of a want for a stream that is there.
pub fn replaced_json(alloc: Global, stream: &Text, want: &Want) -> Result<Value, Memory>
    ensures { IfOk result (λ v. view v ≡ spec.replaced_data stream.now want.now) }
{
    let mut members = want_members(alloc, want)?;
    let stream = text_value(alloc, stream.as_str())?;
    put_value(alloc, &mut members, "stream_id", stream)?;
    Ok(Value::Object(members))
}

/// The object of the status that a stream is to have.
pub fn status_json(alloc: Global, stream: &Text, status: Status) -> Result<Value, Memory>
    ensures { IfOk result (λ v. view v ≡ spec.status_data stream.now status) }
{
    let status = status.as_str();
    Ok(json!(in alloc; {"status": status, "stream_id": stream.as_str()})?)
}

fn want_members(alloc: Global, want: &Want) -> Result<Payload, Memory>
    ensures { IfOk result (λ ms. members_view ms.entries ≡ spec.want_members want.now) }
{
    let mut members = Map::new(alloc);
    put_delivery(alloc, &mut members, &want.delivery)?;
    put_text(alloc, &mut members, "description", &want.description)?;
    put_texts(alloc, &mut members, "events_requested", &want.requested)?;
    Ok(members)
}

fn put_delivery(
    alloc: Global,
    members: &mut Payload,
    delivery: &Option<Delivery>,
) -> Result<(), Memory>
    ensures { OnOk result (members_view members.new.entries
        ≡ put_given (codes "delivery") (option_map spec.delivery_data delivery.now) (members_view members.old.entries)) }
{
    let Some(delivery) = delivery else {
        return Ok(());
    };
    let value = delivery_value(alloc, delivery)?;
    put_value(alloc, members, "delivery", value)
}

fn delivery_value(alloc: Global, delivery: &Delivery) -> Result<Value, Memory>
    ensures { IfOk result (λ v. view v ≡ spec.delivery_data delivery.now) }
{
    match delivery {
        Delivery::Poll => Ok(json!(in alloc; {"method": "urn:ietf:rfc:8936"})?),
        Delivery::Push {
            url,
            authorization,
            ..
        } => push_value(alloc, url.as_str(), authorization),
    }
}

fn push_value(alloc: Global, url: &str, authorization: &Option<Text>) -> Result<Value, Memory>
    ensures { IfOk result (λ v. view v ≡ push_data url.now authorization.now) }
{
    let url = text_value(alloc, url)?;
    let method = text_value(alloc, "urn:ietf:rfc:8935")?;
    let mut members = Map::new(alloc);
    put_value(alloc, &mut members, "endpoint_url", url)?;
    put_value(alloc, &mut members, "method", method)?;
    put_text(alloc, &mut members, "authorization_header", authorization)?;
    Ok(Value::Object(members))
}

fn put_text(
    alloc: Global,
    members: &mut Payload,
    name: &str,
    text: &Option<Text>,
) -> Result<(), Memory>
    ensures { OnOk result (members_view members.new.entries
        ≡ put_given name.now (option_map (λ t. string t) text.now) (members_view members.old.entries)) }
{
    let Some(text) = text else {
        return Ok(());
    };
    let value = text_value(alloc, text.as_str())?;
    put_value(alloc, members, name, value)
}

fn put_texts(
    alloc: Global,
    members: &mut Payload,
    name: &str,
    texts: &Option<Items<Text>>,
) -> Result<(), Memory>
    ensures { OnOk result (members_view members.new.entries
        ≡ put_given name.now (option_map texts_data texts.now) (members_view members.old.entries)) }
{
    let Some(texts) = texts else {
        return Ok(());
    };
    let value = texts_value(alloc, texts.as_slice())?;
    put_value(alloc, members, name, value)
}

fn texts_value(alloc: Global, texts: &[Text]) -> Result<Value, Memory>
    ensures { IfOk result (λ v. view v ≡ texts_data texts.now) }
{
    let mut values = Vec::new(alloc);
    for text in texts {
        values.push(text_value(alloc, text.as_str())?)?;
    }
    Ok(Value::Array(values))
}

fn text_value(alloc: Global, text: &str) -> Result<Value, Memory>
    ensures { IfOk result (λ v. view v ≡ string text.now) }
{
    Ok(Value::String(String::from_str(alloc, text)?))
}
