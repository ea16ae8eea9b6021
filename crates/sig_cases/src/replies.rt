//! Lines on how a transmitter tells its answers: the response to each (OpenID Shared Signals Framework 1.0, section 8.1).

use crate::routes::rules;
use crate::streams::conf_in;
use sig_event::Status;
use sig_http::Response;
use sig_json::{Bytes, Items, Memory, Text, Value, list_of, present, text_of, value_named};
use sig_lines::{copy_member, is_text_or_missing, number_at, said, spelled, valued};
use sig_terms::{Answer, Issued, RefusedToken, Standing, StreamConf};
use sig_txroutes::response_of;
use std::alloc::Global;

const STORE_ID: [u8; 16] = [
    0x6b, 0xa7, 0xb8, 0x10, 0x9d, 0xad, 0x11, 0xd1, 0x80, 0xb4, 0x00, 0xc0, 0x4f, 0xd4, 0x30, 0xc8,
];

/// The status and the body of the response to an answer, `-` for the empty body; none where the rest is no object whose
/// text `answer` names one, with the parts that it has.
pub fn reply(alloc: Global, rest: &[u8]) -> Result<Option<Bytes>, Memory> {
    let Some(case) = spelled(alloc, rest)? else {
        return Ok(None);
    };
    match answer_in(alloc, &case)? {
        Some(answer) => Ok(Some(replied(alloc, answer)?)),
        None => Ok(None),
    }
}

// The answer is dropped by itself, so that no other function has a part of its many kinds.
fn replied(alloc: Global, answer: Answer) -> Result<Bytes, Memory> {
    let told = told(alloc, &answer);
    drop(answer);
    told
}

fn told(alloc: Global, answer: &Answer) -> Result<Bytes, Memory> {
    let rules = rules(alloc, true)?;
    let response = response_of(alloc, answer, &rules)?;
    written(alloc, &response)
}

fn written(alloc: Global, response: &Response) -> Result<Bytes, Memory> {
    let code = response.status;
    let status = format!(in alloc; "{code}")?;
    let body = response.body.as_slice();
    if body.is_empty() {
        return said(alloc, status.as_str(), b"-");
    }
    if body.contains(&b'\n') {
        return lines_said(alloc, status.as_str(), body);
    }
    said(alloc, status.as_str(), body)
}

// A body of lines, as a text in JSON.
fn lines_said(alloc: Global, status: &str, body: &[u8]) -> Result<Bytes, Memory> {
    let Ok(text) = str::from_utf8(body) else {
        return said(alloc, status, b"-");
    };
    let value = Value::String(String::from_str(alloc, text)?);
    valued(alloc, status, &value)
}

fn answer_in(alloc: Global, case: &Value) -> Result<Option<Answer>, Memory> {
    match text_of(case, "answer") {
        Some("made") => made(alloc, case),
        Some("conf") => standing(alloc, case),
        Some("confs") => all_standing(alloc, case),
        Some("state") => state(alloc, case),
        Some("published") => published(alloc, case),
        Some("standings") => page_standing(alloc, case),
        Some("refused") => page_refused(alloc, case),
        Some("figures") => figures(alloc, case),
        Some(name) => named(alloc, name),
        None => Ok(None),
    }
}

fn made(alloc: Global, case: &Value) -> Result<Option<Answer>, Memory> {
    match conf_at(alloc, case)? {
        Some(conf) => Ok(Some(Answer::Made { conf })),
        None => Ok(None),
    }
}

fn standing(alloc: Global, case: &Value) -> Result<Option<Answer>, Memory> {
    match conf_at(alloc, case)? {
        Some(conf) => Ok(Some(Answer::Conf { conf })),
        None => Ok(None),
    }
}

fn all_standing(alloc: Global, case: &Value) -> Result<Option<Answer>, Memory> {
    match confs_at(alloc, case)? {
        Some(confs) => Ok(Some(Answer::Confs { confs })),
        None => Ok(None),
    }
}

fn conf_at(alloc: Global, case: &Value) -> Result<Option<StreamConf>, Memory> {
    match case.get("conf") {
        Some(conf) => conf_in(alloc, conf),
        None => Ok(None),
    }
}

fn confs_at(alloc: Global, case: &Value) -> Result<Option<Items<StreamConf>>, Memory> {
    let Some(list) = list_of(case, "confs") else {
        return Ok(None);
    };
    let mut confs = Vec::new(alloc);
    for item in list.as_slice() {
        match conf_in(alloc, item)? {
            Some(conf) => confs.push(conf)?,
            None => return Ok(None),
        }
    }
    Ok(Some(Items::of(confs)))
}

fn state(alloc: Global, case: &Value) -> Result<Option<Answer>, Memory> {
    let (Some(stream), Some(status)) = (text_of(case, "stream"), status_in(case)) else {
        return Ok(None);
    };
    let reason = match text_of(case, "reason") {
        Some(reason) => Some(Text::of(alloc, reason)?),
        None if present(case, "reason") => return Ok(None),
        None => None,
    };
    Ok(Some(Answer::State {
        stream: Text::of(alloc, stream)?,
        status,
        reason,
        token: None,
    }))
}

fn status_in(case: &Value) -> Option<Status> {
    value_named::<Status>(text_of(case, "status")?)
}

fn published(alloc: Global, case: &Value) -> Result<Option<Answer>, Memory> {
    match tokens_at(alloc, case)? {
        Some(tokens) => Ok(Some(Answer::Published {
            store_id: STORE_ID,
            tokens,
        })),
        None => Ok(None),
    }
}

fn tokens_at(alloc: Global, case: &Value) -> Result<Option<Items<Issued>>, Memory> {
    let Some(list) = list_of(case, "tokens") else {
        return Ok(None);
    };
    let mut tokens = Vec::new(alloc);
    for item in list.as_slice() {
        match token_in(alloc, item)? {
            Some(token) => tokens.push(token)?,
            None => return Ok(None),
        }
    }
    Ok(Some(Items::of(tokens)))
}

// A list of a stream's name and a number.
fn token_in(alloc: Global, item: &Value) -> Result<Option<Issued>, Memory> {
    let Some([stream, number]) = item.as_array().map(|list| list.as_slice()) else {
        return Ok(None);
    };
    let (Some(stream), Some(number)) = (stream.as_str(), number.as_u64()) else {
        return Ok(None);
    };
    Ok(Some(Issued {
        stream: Text::of(alloc, stream)?,
        number,
    }))
}

fn page_standing(alloc: Global, case: &Value) -> Result<Option<Answer>, Memory> {
    let Some(next) = number_at(case, "next") else {
        return Ok(None);
    };
    match standings_at(alloc, case)? {
        Some(standings) => Ok(Some(Answer::Standings { next, standings })),
        None => Ok(None),
    }
}

fn page_refused(alloc: Global, case: &Value) -> Result<Option<Answer>, Memory> {
    let Some(next) = number_at(case, "next") else {
        return Ok(None);
    };
    let Some(list) = list_of(case, "tokens") else {
        return Ok(None);
    };
    let mut tokens = Vec::new(alloc);
    for item in list.as_slice() {
        match refused_in(alloc, item)? {
            Some(token) => tokens.push(token)?,
            None => return Ok(None),
        }
    }
    Ok(Some(Answer::Refused {
        next,
        tokens: Items::of(tokens),
    }))
}

fn refused_in(alloc: Global, item: &Value) -> Result<Option<RefusedToken>, Memory> {
    if !is_text_or_missing(item, "id") || !is_text_or_missing(item, "code") {
        return Ok(None);
    }
    let (Some(number), Some(time)) = (number_at(item, "number"), number_at(item, "time")) else {
        return Ok(None);
    };
    let Some(stream) = copy_member(alloc, item, "stream")? else {
        return Ok(None);
    };
    let id = copy_member(alloc, item, "id")?;
    Ok(Some(RefusedToken {
        stream,
        number,
        id,
        code: copy_member(alloc, item, "code")?,
        time,
    }))
}

fn figures(alloc: Global, case: &Value) -> Result<Option<Answer>, Memory> {
    let Some(publications) = number_at(case, "publications") else {
        return Ok(None);
    };
    match standings_at(alloc, case)? {
        Some(standings) => Ok(Some(Answer::Figures {
            publications,
            standings,
        })),
        None => Ok(None),
    }
}

fn standings_at(alloc: Global, case: &Value) -> Result<Option<Items<Standing>>, Memory> {
    let Some(list) = list_of(case, "standings") else {
        return Ok(None);
    };
    let mut standings = Vec::new(alloc);
    for item in list.as_slice() {
        match standing_in(alloc, item)? {
            Some(standing) => standings.push(standing)?,
            None => return Ok(None),
        }
    }
    Ok(Some(Items::of(standings)))
}

fn standing_in(alloc: Global, item: &Value) -> Result<Option<Standing>, Memory> {
    let (Some(stream), Some(status)) = (text_of(item, "stream"), status_in(item)) else {
        return Ok(None);
    };
    let (Some(owed), Some(made)) = (number_at(item, "owed"), number_at(item, "made")) else {
        return Ok(None);
    };
    let oldest = number_at(item, "oldest");
    if oldest.is_none() && present(item, "oldest") {
        return Ok(None);
    }
    Ok(Some(Standing {
        stream: Text::of(alloc, stream)?,
        status,
        owed,
        oldest,
        made,
    }))
}

// The answers of whose parts a response tells nothing.
fn named(alloc: Global, name: &str) -> Result<Option<Answer>, Memory> {
    match name {
        "asked" => Ok(Some(asked(alloc)?)),
        "delivering" => Ok(Some(delivering(alloc)?)),
        name => Ok(plain(name)),
    }
}

fn asked(alloc: Global) -> Result<Answer, Memory> {
    let stream = Text::of(alloc, "acme-1")?;
    Ok(Answer::Asked { stream, number: 1 })
}

fn delivering(alloc: Global) -> Result<Answer, Memory> {
    let stream = Text::of(alloc, "acme-1")?;
    Ok(Answer::Delivering { stream })
}

fn plain(name: &str) -> Option<Answer> {
    match name {
        "meta" => Some(Answer::Meta),
        "gone" => Some(Answer::Gone),
        "added" => Some(Answer::Added),
        "removed" => Some(Answer::Removed),
        "not-found" => Some(Answer::NotFound),
        "too-many" => Some(Answer::TooMany),
        "conflict" => Some(Answer::Conflict),
        "disabled" => Some(Answer::Disabled),
        "early" => Some(Answer::Early { until: 160 }),
        "long" => Some(Answer::Long { size: 6001 }),
        _ => None,
    }
}
