//! Lines on streams: what bodies want of them and publish, how a configuration is told, which events a stream delivers and
//! whom it fits (OpenID Shared Signals Framework 1.0, sections 6.1, 7.1 and 8.1.1).

ghost use Rattle.std.specs.Prelude.{◌≡◌, IfOk};
ghost use Rattle.sig_cases.specs.Told as spec;

use serde_json::json;
use sig_event::News;
use sig_json::{Bytes, Items, Memory, Text, Value, list_of, text_of};
use sig_lines::{
    bare, cut_at_space, defaults_in, delivery_value, interval_in, named, requested_value, spelled,
    subject_in, text_or_null, texts_in, valued, want_in, yes_or_no,
};
use sig_stream::{
    Call, Defaults, Delivery, PublishFault, StreamConf, Want, WantFault, conf_json, fits,
    publish_of, want_of,
};
use sig_subject::Subject;
use std::alloc::Global;

/// `ok` and what the body wants, or the first check that fails; none where the rest isn't `yes` or `no`, for a gateway,
/// and a value.
pub fn want(alloc: Global, rest: &[u8]) -> Result<Option<Bytes>, Memory> {
    let Some((word, body)) = cut_at_space(rest) else {
        return Ok(None);
    };
    let Some(gateway) = is_yes(word) else {
        return Ok(None);
    };
    match spelled(alloc, body)? {
        Some(body) => Ok(Some(want_told(alloc, &body, gateway)?)),
        None => Ok(None),
    }
}

fn want_told(alloc: Global, body: &Value, gateway: bool) -> Result<Bytes, Memory> {
    match want_of(alloc, body, gateway) {
        Ok(want) => want_again(alloc, &want),
        Err(fault) => want_refused(alloc, fault),
    }
}

fn want_again(alloc: Global, want: &Want) -> Result<Bytes, Memory> {
    valued(alloc, "ok", &want_value(alloc, want)?)
}

fn is_yes(word: &[u8]) -> Option<bool> {
    if word == b"yes".as_slice() {
        return Some(true);
    }
    if word == b"no".as_slice() {
        return Some(false);
    }
    None
}

fn want_refused(alloc: Global, fault: WantFault) -> Result<Bytes, Memory>
    ensures { IfOk result (λ t. t ≡ spec.want_refused fault) }
{
    match fault {
        WantFault::Member(name) => named(alloc, "member", &name),
        WantFault::Method => bare(alloc, "method"),
        WantFault::Endpoint => bare(alloc, "endpoint"),
        WantFault::Memory => Err(Memory),
    }
}

/// What is wanted, as an object of three members.
pub fn want_value(alloc: Global, want: &Want) -> Result<Value, Memory> {
    let delivery = match &want.delivery {
        Some(delivery) => delivery_value(alloc, delivery)?,
        None => Value::Null,
    };
    let description = text_or_null(alloc, &want.description)?;
    let requested = requested_value(alloc, &want.requested)?;
    Ok(json!(in alloc; {
        "delivery": delivery,
        "description": description,
        "requested": requested
    })?)
}

/// `ok` and the publication of the body, or the first check that fails; none where the rest is no value.
pub fn publish(alloc: Global, rest: &[u8]) -> Result<Option<Bytes>, Memory> {
    let Some(body) = spelled(alloc, rest)? else {
        return Ok(None);
    };
    match publish_of(alloc, &body) {
        Ok(call) => published(alloc, call),
        Err(PublishFault::Member(name)) => Ok(Some(named(alloc, "member", &name)?)),
        Err(PublishFault::Memory) => Err(Memory),
    }
}

// The call is dropped by itself, so that this function has no part of its many kinds.
fn published(alloc: Global, call: Call) -> Result<Option<Bytes>, Memory> {
    let answer = publication(alloc, &call);
    drop(call);
    answer
}

// What is read of a publication is one.
fn publication(alloc: Global, call: &Call) -> Result<Option<Bytes>, Memory> {
    match call {
        Call::Publish { id, news } => {
            let value = publication_value(alloc, id, news)?;
            Ok(Some(valued(alloc, "ok", &value)?))
        }
        _ => Ok(None),
    }
}

/// A publication, as an object of its four members.
pub fn publication_value(alloc: Global, id: &Text, news: &News) -> Result<Value, Memory> {
    let payload = sig_event::to_json(alloc, &news.event)?;
    let subject = sig_subject::to_json(alloc, &news.subject)?;
    let uri = sig_event::uri(alloc, &news.event)?;
    Ok(json!(in alloc; {
        "id": id.as_str(),
        "payload": payload,
        "sub_id": subject,
        "uri": uri.as_str()
    })?)
}

/// `ok` and a configuration as it is told, under a `base`; none where the rest is no object of its parts, among them the
/// body of a `want` that is in order where there is a gateway.
pub fn conf(alloc: Global, rest: &[u8]) -> Result<Option<Bytes>, Memory> {
    match spelled(alloc, rest)? {
        Some(case) => conf_of(alloc, &case),
        None => Ok(None),
    }
}

fn conf_of(alloc: Global, case: &Value) -> Result<Option<Bytes>, Memory> {
    let Some(base) = text_of(case, "base") else {
        return Ok(None);
    };
    match conf_in(alloc, case)? {
        Some(conf) => Ok(Some(conf_told(alloc, &conf, base)?)),
        None => Ok(None),
    }
}

fn conf_told(alloc: Global, conf: &StreamConf, base: &str) -> Result<Bytes, Memory> {
    let base = Text::of(alloc, base)?;
    valued(alloc, "ok", &conf_json(alloc, conf, &base)?)
}

/// The configuration that an object spells by its parts.
pub fn conf_in(alloc: Global, case: &Value) -> Result<Option<StreamConf>, Memory> {
    let (Some(stream), Some(iss)) = (text_of(case, "stream"), text_of(case, "iss")) else {
        return Ok(None);
    };
    let (Some(aud), Some(interval)) = (list_of(case, "aud"), interval_in(case)) else {
        return Ok(None);
    };
    let Some(aud) = texts_in(alloc, aud.as_slice())? else {
        return Ok(None);
    };
    let Some(mut want) = want_in(alloc, case)? else {
        return Ok(None);
    };
    Ok(Some(StreamConf {
        stream: Text::of(alloc, stream)?,
        iss: Text::of(alloc, iss)?,
        aud,
        requested: want.requested.take(),
        delivery: want.delivery.take().unwrap_or(Delivery::Poll),
        interval,
        defaults: Defaults::All,
        description: want.description.take(),
    }))
}

/// Whether a stream that asked for these types, or for none in particular, delivers events of a URI; none where the rest
/// is no object of both.
pub fn delivers(alloc: Global, rest: &[u8]) -> Result<Option<Bytes>, Memory> {
    let Some(case) = spelled(alloc, rest)? else {
        return Ok(None);
    };
    let (Some(requested), Some(uri)) = (case.get("requested"), text_of(&case, "uri")) else {
        return Ok(None);
    };
    match requested {
        Value::Null => Ok(Some(delivered(alloc, None, uri)?)),
        Value::Array(list) => match texts_in(alloc, list.as_slice())? {
            Some(texts) => Ok(Some(delivered(alloc, Some(texts), uri)?)),
            None => Ok(None),
        },
        _ => Ok(None),
    }
}

fn delivered(alloc: Global, requested: Option<Items<Text>>, uri: &str) -> Result<Bytes, Memory> {
    let conf = StreamConf {
        stream: Text::of(alloc, "")?,
        iss: Text::of(alloc, "")?,
        aud: Items::of(Vec::new(alloc)),
        requested,
        delivery: Delivery::Poll,
        interval: 0,
        defaults: Defaults::All,
        description: None,
    };
    yes_or_no(alloc, sig_stream::delivers(&conf, uri))
}

/// Whether a subject is one of a stream's, by its default subjects and its list; none where the rest is no object of the
/// three.
pub fn fitting(alloc: Global, rest: &[u8]) -> Result<Option<Bytes>, Memory> {
    match spelled(alloc, rest)? {
        Some(case) => fitting_in(alloc, &case),
        None => Ok(None),
    }
}

fn fitting_in(alloc: Global, case: &Value) -> Result<Option<Bytes>, Memory> {
    let (Some(defaults), Some(list), Some(subject)) = (
        defaults_in(case),
        list_of(case, "listed"),
        case.get("subject"),
    ) else {
        return Ok(None);
    };
    let Some(listed) = subjects_in(alloc, list.as_slice())? else {
        return Ok(None);
    };
    match subject_in(alloc, subject)? {
        Some(subject) => Ok(Some(yes_or_no(alloc, fits(defaults, &listed, &subject))?)),
        None => Ok(None),
    }
}

fn subjects_in(alloc: Global, list: &[Value]) -> Result<Option<Items<Subject>>, Memory> {
    let mut subjects = Vec::new(alloc);
    for item in list {
        match subject_in(alloc, item)? {
            Some(subject) => subjects.push(subject)?,
            None => return Ok(None),
        }
    }
    Ok(Some(Items::of(subjects)))
}
