//! What a request asks of a transmitter, as an object: the name of the call, whose it is, and its parts.

use crate::streams::{publication_value, want_value};
use serde_json::Map;
use sig_event::{News, Status};
use sig_json::{Listed, Memory, Text, Value, put_value};
use sig_subject::Subject;
use sig_terms::{Call, Want};
use std::alloc::Global;

type Members = Map<String, Value>;

/// The object of a call. No request polls here, and none makes a call that the transmitter makes itself.
pub fn call_value(alloc: Global, call: &Call) -> Result<Value, Memory> {
    match call {
        Call::Metadata => Ok(Value::Object(called(alloc, "metadata")?)),
        Call::Create { client, want } => created(alloc, client, want),
        Call::ReadAll { client } => Ok(Value::Object(by(alloc, "read_all", client)?)),
        Call::Read { client, stream } => on(alloc, "read", client, stream),
        Call::Patch {
            client,
            stream,
            want,
        } => changed(alloc, "patch", client, stream, want),
        Call::Put {
            client,
            stream,
            want,
        } => changed(alloc, "put", client, stream, want),
        Call::Delete { client, stream } => on(alloc, "delete", client, stream),
        Call::GetStatus { client, stream } => on(alloc, "get_status", client, stream),
        Call::SetStatus {
            client,
            stream,
            status,
            reason,
        } => client_status(alloc, client, stream, *status, reason),
        Call::Add {
            client,
            stream,
            subject,
        } => about(alloc, "add", client, stream, subject),
        Call::Remove {
            client,
            stream,
            subject,
        } => about(alloc, "remove", client, stream, subject),
        Call::Verify {
            client,
            stream,
            state,
        } => verified(alloc, client, stream, state),
        Call::Publish { id, news } => published(alloc, id, news),
        Call::OperatorStatus {
            stream,
            status,
            reason,
        } => operator_status(alloc, stream, *status, reason),
        Call::OperatorDelete { stream } => of_stream(alloc, "operator_delete", stream),
        Call::Streams { from } => from_place(alloc, "streams", *from),
        Call::Refused { from } => from_place(alloc, "refused", *from),
        Call::Figures => Ok(Value::Object(called(alloc, "figures")?)),
        Call::Deliver { stream } => of_stream(alloc, "deliver", stream),
        Call::Poll { .. } | Call::Hand { .. } | Call::Settle { .. } => Ok(Value::Null),
    }
}

// The members of a call of this name.
fn called(alloc: Global, name: &str) -> Result<Members, Memory> {
    let mut members = Map::new(alloc);
    put_text(alloc, &mut members, "call", name)?;
    Ok(members)
}

// The same of a client's call.
fn by(alloc: Global, name: &str, client: &Text) -> Result<Members, Memory> {
    let mut members = called(alloc, name)?;
    put_text(alloc, &mut members, "client", client.as_str())?;
    Ok(members)
}

// The same of a client's call on a stream.
fn by_on(alloc: Global, name: &str, client: &Text, stream: &Text) -> Result<Members, Memory> {
    let mut members = by(alloc, name, client)?;
    put_text(alloc, &mut members, "stream", stream.as_str())?;
    Ok(members)
}

fn on(alloc: Global, name: &str, client: &Text, stream: &Text) -> Result<Value, Memory> {
    Ok(Value::Object(by_on(alloc, name, client, stream)?))
}

fn created(alloc: Global, client: &Text, want: &Want) -> Result<Value, Memory> {
    let members = by(alloc, "create", client)?;
    wanted(alloc, members, want)
}

fn wanted(alloc: Global, mut members: Members, want: &Want) -> Result<Value, Memory> {
    let want = want_value(alloc, want)?;
    put_value(alloc, &mut members, "want", want)?;
    Ok(Value::Object(members))
}

fn changed(
    alloc: Global,
    name: &str,
    client: &Text,
    stream: &Text,
    want: &Want,
) -> Result<Value, Memory> {
    let members = by_on(alloc, name, client, stream)?;
    wanted(alloc, members, want)
}

fn about(
    alloc: Global,
    name: &str,
    client: &Text,
    stream: &Text,
    subject: &Subject,
) -> Result<Value, Memory> {
    let subject = sig_subject::to_json(alloc, subject)?;
    let mut members = by_on(alloc, name, client, stream)?;
    put_value(alloc, &mut members, "subject", subject)?;
    Ok(Value::Object(members))
}

fn verified(
    alloc: Global,
    client: &Text,
    stream: &Text,
    state: &Option<Text>,
) -> Result<Value, Memory> {
    let mut members = by_on(alloc, "verify", client, stream)?;
    put_given(alloc, &mut members, "state", state)?;
    Ok(Value::Object(members))
}

fn client_status(
    alloc: Global,
    client: &Text,
    stream: &Text,
    status: Status,
    reason: &Option<Text>,
) -> Result<Value, Memory> {
    let mut members = by_on(alloc, "set_status", client, stream)?;
    put_status(alloc, &mut members, status, reason)?;
    Ok(Value::Object(members))
}

fn operator_status(
    alloc: Global,
    stream: &Text,
    status: Status,
    reason: &Option<Text>,
) -> Result<Value, Memory> {
    let mut members = called(alloc, "operator_status")?;
    put_text(alloc, &mut members, "stream", stream.as_str())?;
    put_status(alloc, &mut members, status, reason)?;
    Ok(Value::Object(members))
}

fn put_status(
    alloc: Global,
    members: &mut Members,
    status: Status,
    reason: &Option<Text>,
) -> Result<(), Memory> {
    put_text(alloc, members, "status", status.as_str())?;
    put_given(alloc, members, "reason", reason)
}

// A call of the operator on a stream, without further parts.
fn of_stream(alloc: Global, name: &str, stream: &Text) -> Result<Value, Memory> {
    let mut members = called(alloc, name)?;
    put_text(alloc, &mut members, "stream", stream.as_str())?;
    Ok(Value::Object(members))
}

// A call of the operator that reads a page.
fn from_place(alloc: Global, name: &str, from: u64) -> Result<Value, Memory> {
    let mut members = called(alloc, name)?;
    put_value(alloc, &mut members, "from", Value::from(from))?;
    Ok(Value::Object(members))
}

// The object of a publication, with the name of the call.
fn published(alloc: Global, id: &Text, news: &News) -> Result<Value, Memory> {
    match publication_value(alloc, id, news)? {
        Value::Object(members) => named(alloc, members),
        other => Ok(other),
    }
}

fn named(alloc: Global, mut members: Members) -> Result<Value, Memory> {
    put_text(alloc, &mut members, "call", "publish")?;
    Ok(Value::Object(members))
}

fn put_given(
    alloc: Global,
    members: &mut Members,
    name: &str,
    text: &Option<Text>,
) -> Result<(), Memory> {
    match text {
        Some(text) => put_text(alloc, members, name, text.as_str()),
        None => Ok(()),
    }
}

fn put_text(alloc: Global, members: &mut Members, name: &str, text: &str) -> Result<(), Memory> {
    let value = Value::String(String::from_str(alloc, text)?);
    put_value(alloc, members, name, value)
}
