//! The calls at a transmitter's core that lines spell (OpenID Shared Signals Framework 1.0, section 8.1; RFC 8935,
//! section 2; RFC 8936, section 2). Each function here is none where the line spells no such call.

use sig_event::Status;
use sig_json::{Items, Memory, Text, Value, list_of, text_of, value_named};
use sig_lines::{copy_member, is_text_or_missing, number_at, subject_in, texts_in, want_in};
use sig_outbox::{Call, Outcome, PollAsk, Reported};
use sig_stream::{PublishFault, publish_of};
use sig_subject::Subject;
use std::alloc::Global;

/// The call of this name whose parts the object has.
pub fn call_named(alloc: Global, name: &str, case: &Value) -> Result<Option<Call>, Memory> {
    match name {
        "metadata" => Ok(Some(Call::Metadata)),
        "create" => create(alloc, case),
        "read_all" => read_all(alloc, case),
        "read" => read(alloc, case),
        "patch" => patch(alloc, case),
        "put" => put(alloc, case),
        "delete" => delete(alloc, case),
        "get_status" => get_status(alloc, case),
        "set_status" => set_status(alloc, case),
        "add" => add(alloc, case),
        "remove" => remove(alloc, case),
        _ => call_on_tokens(alloc, name, case),
    }
}

fn call_on_tokens(alloc: Global, name: &str, case: &Value) -> Result<Option<Call>, Memory> {
    match name {
        "verify" => verify(alloc, case),
        "poll" => poll(alloc, case),
        "publish" => publish(alloc, case),
        "operator_status" => operator_status(alloc, case),
        "operator_delete" => operator_delete(alloc, case),
        "streams" => Ok(streams(case)),
        "refused" => Ok(refused(case)),
        "figures" => Ok(Some(Call::Figures)),
        "deliver" => deliver(alloc, case),
        "hand" => hand(alloc, case),
        "settle" => settle(alloc, case),
        _ => Ok(None),
    }
}

// The names of a client and of a stream.
struct Names {
    client: Text,
    stream: Text,
}

fn names_in(alloc: Global, case: &Value) -> Result<Option<Names>, Memory> {
    let (Some(client), Some(stream)) = (text_of(case, "client"), text_of(case, "stream")) else {
        return Ok(None);
    };
    Ok(Some(Names {
        client: Text::of(alloc, client)?,
        stream: Text::of(alloc, stream)?,
    }))
}

// The call of a client's on a stream, without further parts.
fn read(alloc: Global, case: &Value) -> Result<Option<Call>, Memory> {
    match names_in(alloc, case)? {
        Some(Names { client, stream }) => Ok(Some(Call::Read { client, stream })),
        None => Ok(None),
    }
}

fn delete(alloc: Global, case: &Value) -> Result<Option<Call>, Memory> {
    match names_in(alloc, case)? {
        Some(Names { client, stream }) => Ok(Some(Call::Delete { client, stream })),
        None => Ok(None),
    }
}

fn get_status(alloc: Global, case: &Value) -> Result<Option<Call>, Memory> {
    match names_in(alloc, case)? {
        Some(Names { client, stream }) => Ok(Some(Call::GetStatus { client, stream })),
        None => Ok(None),
    }
}

fn create(alloc: Global, case: &Value) -> Result<Option<Call>, Memory> {
    let Some(want) = want_in(alloc, case)? else {
        return Ok(None);
    };
    match copy_member(alloc, case, "client")? {
        Some(client) => Ok(Some(Call::Create { client, want })),
        None => Ok(None),
    }
}

fn read_all(alloc: Global, case: &Value) -> Result<Option<Call>, Memory> {
    match copy_member(alloc, case, "client")? {
        Some(client) => Ok(Some(Call::ReadAll { client })),
        None => Ok(None),
    }
}

fn patch(alloc: Global, case: &Value) -> Result<Option<Call>, Memory> {
    let Some(want) = want_in(alloc, case)? else {
        return Ok(None);
    };
    match names_in(alloc, case)? {
        Some(Names { client, stream }) => Ok(Some(Call::Patch {
            client,
            stream,
            want,
        })),
        None => Ok(None),
    }
}

fn put(alloc: Global, case: &Value) -> Result<Option<Call>, Memory> {
    let Some(want) = want_in(alloc, case)? else {
        return Ok(None);
    };
    match names_in(alloc, case)? {
        Some(Names { client, stream }) => Ok(Some(Call::Put {
            client,
            stream,
            want,
        })),
        None => Ok(None),
    }
}

// A status, and why it is set.
struct Setting {
    status: Status,
    reason: Option<Text>,
}

fn status_in(case: &Value) -> Option<Status> {
    let word = text_of(case, "status")?;
    value_named(word)
}

fn setting_in(alloc: Global, case: &Value) -> Result<Option<Setting>, Memory> {
    let Some(status) = status_in(case) else {
        return Ok(None);
    };
    if !is_text_or_missing(case, "reason") {
        return Ok(None);
    }
    let reason = copy_member(alloc, case, "reason")?;
    Ok(Some(Setting { status, reason }))
}

fn set_status(alloc: Global, case: &Value) -> Result<Option<Call>, Memory> {
    let Some(Setting { status, reason }) = setting_in(alloc, case)? else {
        return Ok(None);
    };
    match names_in(alloc, case)? {
        Some(Names { client, stream }) => Ok(Some(Call::SetStatus {
            client,
            stream,
            status,
            reason,
        })),
        None => Ok(None),
    }
}

fn operator_status(alloc: Global, case: &Value) -> Result<Option<Call>, Memory> {
    let Some(Setting { status, reason }) = setting_in(alloc, case)? else {
        return Ok(None);
    };
    match copy_member(alloc, case, "stream")? {
        Some(stream) => Ok(Some(Call::OperatorStatus {
            stream,
            status,
            reason,
        })),
        None => Ok(None),
    }
}

fn operator_delete(alloc: Global, case: &Value) -> Result<Option<Call>, Memory> {
    match copy_member(alloc, case, "stream")? {
        Some(stream) => Ok(Some(Call::OperatorDelete { stream })),
        None => Ok(None),
    }
}

fn streams(case: &Value) -> Option<Call> {
    let from = number_at(case, "from")?;
    Some(Call::Streams { from })
}

fn refused(case: &Value) -> Option<Call> {
    let from = number_at(case, "from")?;
    Some(Call::Refused { from })
}

fn about(alloc: Global, case: &Value) -> Result<Option<Subject>, Memory> {
    match case.get("subject") {
        Some(subject) => subject_in(alloc, subject),
        None => Ok(None),
    }
}

fn add(alloc: Global, case: &Value) -> Result<Option<Call>, Memory> {
    let Some(subject) = about(alloc, case)? else {
        return Ok(None);
    };
    match names_in(alloc, case)? {
        Some(Names { client, stream }) => Ok(Some(Call::Add {
            client,
            stream,
            subject,
        })),
        None => Ok(None),
    }
}

fn remove(alloc: Global, case: &Value) -> Result<Option<Call>, Memory> {
    let Some(subject) = about(alloc, case)? else {
        return Ok(None);
    };
    match names_in(alloc, case)? {
        Some(Names { client, stream }) => Ok(Some(Call::Remove {
            client,
            stream,
            subject,
        })),
        None => Ok(None),
    }
}

fn verify(alloc: Global, case: &Value) -> Result<Option<Call>, Memory> {
    if !is_text_or_missing(case, "state") {
        return Ok(None);
    }
    let state = copy_member(alloc, case, "state")?;
    match names_in(alloc, case)? {
        Some(Names { client, stream }) => Ok(Some(Call::Verify {
            client,
            stream,
            state,
        })),
        None => Ok(None),
    }
}

fn poll(alloc: Global, case: &Value) -> Result<Option<Call>, Memory> {
    let Some(ask) = case.get("ask") else {
        return Ok(None);
    };
    let Some(ask) = ask_in(alloc, ask)? else {
        return Ok(None);
    };
    match names_in(alloc, case)? {
        Some(Names { client, stream }) => Ok(Some(Call::Poll {
            client,
            stream,
            ask,
        })),
        None => Ok(None),
    }
}

fn ask_in(alloc: Global, ask: &Value) -> Result<Option<PollAsk>, Memory> {
    let (Some(acks), Some(errors), Some(max)) = (
        list_of(ask, "acks"),
        list_of(ask, "errors"),
        most_in(ask),
    ) else {
        return Ok(None);
    };
    let Some(acks) = texts_in(alloc, acks.as_slice())? else {
        return Ok(None);
    };
    match errors_in(alloc, errors.as_slice())? {
        Some(errors) => Ok(Some(PollAsk { max, acks, errors })),
        None => Ok(None),
    }
}

// How many tokens are asked for at most; null where none is said.
fn most_in(ask: &Value) -> Option<Option<u64>> {
    if ask.get("max")?.is_null() {
        return Some(None);
    }
    Some(Some(number_at(ask, "max")?))
}

fn errors_in(alloc: Global, list: &[Value]) -> Result<Option<Items<Reported>>, Memory> {
    let mut errors = Vec::new(alloc);
    for item in list {
        match error_in(alloc, item)? {
            Some(error) => errors.push(error)?,
            None => return Ok(None),
        }
    }
    Ok(Some(Items::of(errors)))
}

// A token's identifier and a code.
fn error_in(alloc: Global, item: &Value) -> Result<Option<Reported>, Memory> {
    let Some([jti, code]) = item.as_array().map(|list| list.as_slice()) else {
        return Ok(None);
    };
    let (Some(jti), Some(code)) = (jti.as_str(), code.as_str()) else {
        return Ok(None);
    };
    Ok(Some(Reported {
        jti: Text::of(alloc, jti)?,
        code: Text::of(alloc, code)?,
    }))
}

fn publish(alloc: Global, case: &Value) -> Result<Option<Call>, Memory> {
    let Some(body) = case.get("publication") else {
        return Ok(None);
    };
    match publish_of(alloc, body) {
        Ok(call) => Ok(Some(call)),
        Err(PublishFault::Memory) => Err(Memory),
        Err(_) => Ok(None),
    }
}

fn deliver(alloc: Global, case: &Value) -> Result<Option<Call>, Memory> {
    match copy_member(alloc, case, "stream")? {
        Some(stream) => Ok(Some(Call::Deliver { stream })),
        None => Ok(None),
    }
}

fn hand(alloc: Global, case: &Value) -> Result<Option<Call>, Memory> {
    let Some(list) = list_of(case, "streams") else {
        return Ok(None);
    };
    match texts_in(alloc, list.as_slice())? {
        Some(streams) => Ok(Some(Call::Hand { streams })),
        None => Ok(None),
    }
}

fn settle(alloc: Global, case: &Value) -> Result<Option<Call>, Memory> {
    let (Some(stream), Some(number)) = (text_of(case, "stream"), number_at(case, "number")) else {
        return Ok(None);
    };
    match outcome_in(alloc, case)? {
        Some(outcome) => Ok(Some(Call::Settle {
            stream: Text::of(alloc, stream)?,
            number,
            outcome,
        })),
        None => Ok(None),
    }
}

// What became of a token: `accepted`, `keep`, or `reported` with a code.
fn outcome_in(alloc: Global, case: &Value) -> Result<Option<Outcome>, Memory> {
    let Some(word) = text_of(case, "outcome") else {
        return Ok(None);
    };
    match word {
        "accepted" => Ok(Some(Outcome::Accepted)),
        "keep" => Ok(Some(Outcome::Keep)),
        "reported" => reported(alloc, case),
        _ => Ok(None),
    }
}

fn reported(alloc: Global, case: &Value) -> Result<Option<Outcome>, Memory> {
    match copy_member(alloc, case, "code")? {
        Some(code) => Ok(Some(Outcome::Reported { code })),
        None => Ok(None),
    }
}
