//! How the answers of a transmitter's core are told: a word, and an object where there is more to tell.

use serde_json::json;
use sig_event::Status;
use sig_json::{Bytes, Listed, Memory, Text, Value};
use sig_lines::{
    bare, defaults_text, delivery_value, encoded_text, named, requested_value, said, spelled,
    text_or_null, texts_value, valued,
};
use sig_outbox::{Answer, Issued, RefusedToken, Standing, StreamConf, Token};
use sig_set::payload_text;
use sig_stream::Endpoint;
use std::alloc::Global;

/// What is told of an answer.
pub fn told(alloc: Global, answer: &Answer) -> Result<Bytes, Memory> {
    match answer {
        Answer::Made { conf } => configured(alloc, "made", conf),
        Answer::Conf { conf } => configured(alloc, "conf", conf),
        Answer::Confs { confs } => all_confs(alloc, confs.as_slice()),
        Answer::State {
            stream,
            status,
            reason,
            token,
        } => standing(alloc, stream, *status, reason, *token),
        Answer::Asked { stream, number } => asked(alloc, stream, *number),
        Answer::Sets { tokens, more } => offered(alloc, tokens.as_slice(), *more),
        Answer::Published { store_id, tokens } => published(alloc, *store_id, tokens.as_slice()),
        Answer::Handed { tokens } => handed(alloc, tokens.as_slice()),
        Answer::Standings { next, standings } => listed(alloc, *next, standings.as_slice()),
        Answer::Refused { next, tokens } => reported(alloc, *next, tokens.as_slice()),
        Answer::Figures {
            publications,
            standings,
        } => figured(alloc, *publications, standings.as_slice()),
        Answer::Meta => bare(alloc, "meta"),
        Answer::Gone => bare(alloc, "gone"),
        Answer::Added => bare(alloc, "added"),
        Answer::Removed => bare(alloc, "removed"),
        Answer::Delivering { stream } => named(alloc, "delivering", stream),
        Answer::Settled { count } => counted(alloc, "settled", *count),
        Answer::NotFound => bare(alloc, "not-found"),
        Answer::TooMany => bare(alloc, "too-many"),
        Answer::Conflict => bare(alloc, "conflict"),
        Answer::Disabled => bare(alloc, "disabled"),
        Answer::Early { until } => counted(alloc, "early", *until),
        Answer::Long { size } => counted(alloc, "long", *size),
    }
}

/// The word, a space and the number.
pub fn counted(alloc: Global, word: &str, number: u64) -> Result<Bytes, Memory> {
    let digits = format!(in alloc; "{number}")?;
    said(alloc, word, digits.as_bytes())
}

fn configured(alloc: Global, word: &str, conf: &StreamConf) -> Result<Bytes, Memory> {
    let value = conf_value(alloc, conf)?;
    valued(alloc, word, &value)
}

// A stream's configuration, part by part.
fn conf_value(alloc: Global, conf: &StreamConf) -> Result<Value, Memory> {
    let aud = texts_value(alloc, conf.aud.as_slice())?;
    let delivery = delivery_value(alloc, &conf.delivery)?;
    let description = text_or_null(alloc, &conf.description)?;
    let requested = requested_value(alloc, &conf.requested)?;
    Ok(json!(in alloc; {
        "aud": aud,
        "defaults": defaults_text(conf.defaults),
        "delivery": delivery,
        "description": description,
        "interval": conf.interval,
        "iss": conf.iss.as_str(),
        "requested": requested,
        "stream": conf.stream.as_str()
    })?)
}

fn all_confs(alloc: Global, confs: &[StreamConf]) -> Result<Bytes, Memory> {
    let mut values = Vec::new(alloc);
    for conf in confs {
        values.push(conf_value(alloc, conf)?)?;
    }
    valued(alloc, "confs", &Value::Array(values))
}

fn standing(
    alloc: Global,
    stream: &Text,
    status: Status,
    reason: &Option<Text>,
    token: Option<u64>,
) -> Result<Bytes, Memory> {
    let reason = text_or_null(alloc, reason)?;
    let token = match token {
        Some(number) => Value::from(number),
        None => Value::Null,
    };
    let value = json!(in alloc; {
        "reason": reason,
        "status": status.as_str(),
        "stream": stream.as_str(),
        "token": token
    })?;
    valued(alloc, "state", &value)
}

fn asked(alloc: Global, stream: &Text, number: u64) -> Result<Bytes, Memory> {
    let value = json!(in alloc; {"number": number, "stream": stream.as_str()})?;
    valued(alloc, "asked", &value)
}

fn offered(alloc: Global, tokens: &[Token], more: bool) -> Result<Bytes, Memory> {
    let tokens = tokens_value(alloc, tokens)?;
    let value = json!(in alloc; {"more": more, "tokens": tokens})?;
    valued(alloc, "sets", &value)
}

fn handed(alloc: Global, tokens: &[Token]) -> Result<Bytes, Memory> {
    valued(alloc, "handed", &tokens_value(alloc, tokens)?)
}

fn tokens_value(alloc: Global, tokens: &[Token]) -> Result<Value, Memory> {
    let mut values = Vec::new(alloc);
    for token in tokens {
        values.push(token_value(alloc, token)?)?;
    }
    Ok(Value::Array(values))
}

fn token_value(alloc: Global, token: &Token) -> Result<Value, Memory> {
    let authorization = text_or_null(alloc, &token.authorization)?;
    let payload = payload_text(alloc, &token.claims)?;
    let claims = spelled(alloc, payload.as_slice())?.unwrap_or(Value::Null);
    let endpoint = endpoint_value(alloc, &token.endpoint)?;
    Ok(json!(in alloc; {
        "authorization": authorization,
        "claims": claims,
        "endpoint": endpoint,
        "number": token.number,
        "stream": token.stream.as_str()
    })?)
}

fn endpoint_value(alloc: Global, endpoint: &Option<Endpoint>) -> Result<Value, Memory> {
    let Some(endpoint) = endpoint else {
        return Ok(Value::Null);
    };
    Ok(json!(in alloc; {
        "host": endpoint.place.host.as_str(),
        "path": endpoint.path.as_str(),
        "port": endpoint.place.port,
        "secure": endpoint.secure
    })?)
}

fn published(alloc: Global, store_id: [u8; 16], tokens: &[Issued]) -> Result<Bytes, Memory> {
    let store = encoded_text(alloc, store_id.as_slice())?;
    let mut values = Vec::new(alloc);
    for token in tokens {
        values.push(json!(in alloc; {"number": token.number, "stream": token.stream.as_str()})?)?;
    }
    let tokens = Value::Array(values);
    let value = json!(in alloc; {"store": store.as_str(), "tokens": tokens})?;
    valued(alloc, "published", &value)
}

fn listed(alloc: Global, next: u64, standings: &[Standing]) -> Result<Bytes, Memory> {
    let streams = standings_value(alloc, standings)?;
    let value = json!(in alloc; {"next": next, "streams": streams})?;
    valued(alloc, "standings", &value)
}

fn reported(alloc: Global, next: u64, tokens: &[RefusedToken]) -> Result<Bytes, Memory> {
    let mut values = Vec::new(alloc);
    for token in tokens {
        values.push(reported_value(alloc, token)?)?;
    }
    let tokens = Value::Array(values);
    let value = json!(in alloc; {"next": next, "tokens": tokens})?;
    valued(alloc, "refused", &value)
}

fn reported_value(alloc: Global, token: &RefusedToken) -> Result<Value, Memory> {
    let id = text_or_null(alloc, &token.id)?;
    let code = text_or_null(alloc, &token.code)?;
    Ok(json!(in alloc; {
        "code": code,
        "id": id,
        "number": token.number,
        "stream": token.stream.as_str(),
        "time": token.time
    })?)
}

fn figured(alloc: Global, publications: u64, standings: &[Standing]) -> Result<Bytes, Memory> {
    let streams = standings_value(alloc, standings)?;
    let value = json!(in alloc; {"publications": publications, "streams": streams})?;
    valued(alloc, "figures", &value)
}

fn standings_value(alloc: Global, standings: &[Standing]) -> Result<Value, Memory> {
    let mut values = Vec::new(alloc);
    for standing in standings {
        values.push(standing_value(alloc, standing)?)?;
    }
    Ok(Value::Array(values))
}

fn standing_value(alloc: Global, standing: &Standing) -> Result<Value, Memory> {
    let oldest = match standing.oldest {
        Some(time) => Value::from(time),
        None => Value::Null,
    };
    Ok(json!(in alloc; {
        "made": standing.made,
        "oldest": oldest,
        "owed": standing.owed,
        "status": standing.status.as_str(),
        "stream": standing.stream.as_str()
    })?)
}
