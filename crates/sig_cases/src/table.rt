//! Lines on the session table.

use serde_json::{Map, json};
use sig_event::{Claims, Event, EventFault};
use sig_json::{Bytes, Items, Listed, Memory, Text, Value};
use sig_lines::{bare, number_in, said, spelled, subject_in, valued};
use sig_receiver::row_line;
use sig_sessions::{Table, Verdict};
use sig_set::Spot;
use sig_subject::Subject;
use std::alloc::Global;

/// `rows <count>` after the events took effect, or `bad` and the spot of the first check that fails; none where the rest
/// is no object.
pub fn take(alloc: Global, table: &mut Table, rest: &[u8]) -> Result<Option<Bytes>, Memory> {
    let Some(case) = spelled(alloc, rest)? else {
        return Ok(None);
    };
    if !case.is_object() {
        return Ok(None);
    }
    let answer = match happened(alloc, &case)? {
        Ok(claims) => taken(alloc, table, &claims)?,
        Err(spot) => said(alloc, "bad", spot.as_str().as_bytes())?,
    };
    Ok(Some(answer))
}

fn taken(alloc: Global, table: &mut Table, claims: &Claims) -> Result<Bytes, Memory> {
    let change = table.prepare(claims)?;
    table.commit(change);
    let count = table.as_slice().len();
    let text = format!(in alloc; "rows {count}")?;
    bare(alloc, text.as_str())
}

// The claims of a token with this subject and these events, or the spot at which its judgement would end.
fn happened(alloc: Global, case: &Value) -> Result<Result<Claims, Spot>, Memory> {
    let Some(subject) = about(alloc, case)? else {
        return Ok(Err(Spot::SubId));
    };
    let Some(members) = some_members(case) else {
        return Ok(Err(Spot::Events));
    };
    let Some(events) = events(alloc, &subject, members)? else {
        return Ok(Err(Spot::Event));
    };
    Ok(Ok(Claims {
        iss: Text::of(alloc, "")?,
        jti: Text::of(alloc, "")?,
        iat: 0,
        aud: Items::of(Vec::new(alloc)),
        subject,
        events,
    }))
}

fn about(alloc: Global, case: &Value) -> Result<Option<Subject>, Memory> {
    match case.get("sub_id") {
        Some(value) => subject_in(alloc, value),
        None => Ok(None),
    }
}

// The members of `events`, none where it has no member.
fn some_members(case: &Value) -> Option<&Map<String, Value>> {
    let members = case.get("events")?.as_object()?;
    if members.is_empty() {
        return None;
    }
    Some(members)
}

// The events in byte order of their types, none where one of them is no event about the subject.
fn events(
    alloc: Global,
    subject: &Subject,
    members: &Map<String, Value>,
) -> Result<Option<Items<Event>>, Memory> {
    let mut events = Vec::new(alloc);
    for (uri, payload) in members.iter() {
        match sig_event::from_json(alloc, uri.as_str(), payload, subject) {
            Ok(event) => events.push(event)?,
            Err(EventFault::Memory) => return Err(Memory),
            Err(_) => return Ok(None),
        }
    }
    Ok(Some(Items::of(events)))
}

/// The line of the row at a place, counted from 1, or `none` where there are not so many; none where the rest is no
/// place.
pub fn row(alloc: Global, table: &Table, rest: &[u8]) -> Result<Option<Bytes>, Memory> {
    let Some(place) = number_in(rest) else {
        return Ok(None);
    };
    let page = table.rows(place.saturating_sub(1), 1)?;
    let answer = match page.as_slice().first() {
        Some(row) => {
            let line = row_line(alloc, place, row)?;
            bare(alloc, line.as_str().trim_end())?
        }
        None => bare(alloc, "none")?,
    };
    Ok(Some(answer))
}

/// The verdict on a subject as an object of six members; none where the rest is no subject.
pub fn verdict(alloc: Global, table: &Table, rest: &[u8]) -> Result<Option<Bytes>, Memory> {
    let Some(value) = spelled(alloc, rest)? else {
        return Ok(None);
    };
    let Some(subject) = subject_in(alloc, &value)? else {
        return Ok(None);
    };
    let verdict = table.verdict(&subject);
    Ok(Some(object(alloc, verdict)?))
}

fn object(alloc: Global, verdict: Verdict) -> Result<Bytes, Memory> {
    let value = json!(in alloc; {
        "account": verdict.account.as_str(),
        "allow": verdict.allow,
        "device": verdict.device.as_str(),
        "known": verdict.known,
        "reset": verdict.reset,
        "session": verdict.session.as_str()
    })?;
    let text = value.to_string(alloc)?;
    Ok(Bytes::from_vec(text.into_bytes()))
}
