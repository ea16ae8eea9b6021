//! What a payload says: its last checks, and the claims.

ghost use Rattle.std.specs.Prelude.{◌≡◌, [], IfOk, IfSome, Some, codes, is_some, option_copied, unwrap_or};
ghost use Rattle.serde_json.specs.View.{members_view, view};
ghost use Rattle.sig_json.specs.Answers.{Answers};
ghost use Rattle.sig_json.specs.Checks.{first_failing};
ghost use Rattle.sig_set.specs.Checks.{passed, unless_refused};
ghost use Rattle.sig_json.specs.Json.{member_of};
ghost use Rattle.sig_json.specs.Members.{has_members};
ghost use Rattle.sig_set.specs.Claims.{audience_in, claims_in, content_checks, event_checks, events_in, events_of, stamp_checks, subject_checks, subject_in, text_in};
ghost use Rattle.sig_set.specs.Tests.{has_member, is_filled_and_wanted, where_there};

use crate::refusal::refused;
use crate::values::{text_in, time_of};
use crate::{Claims, Code, Refusal, Spot};
use serde_json::Map;
use sig_event::{Event, EventFault};
use sig_json::{Items, Memory, Text, Value, present, text_of};
use sig_subject::{Subject, SubjectFault};
use std::alloc::Global;

/// The claims that the payload says, under this identifier where one is named: `InvalidRequest` at the first member
/// that isn't as it has to be.
///
/// The audience is that of the payload, which the caller has read.
pub fn content(
    alloc: Global,
    named: Option<&Text>,
    payload: &Value,
    audience: Option<Items<Text>>,
) -> Result<Claims, Refusal>
    requires { audience ≡ audience_in (Some (view payload.now)) }
    ensures { Answers Refusal.Memory result
        (unless_refused (first_failing (content_checks (option_copied named.entry) (Some (view payload.now)))) (claims_in (Some (view payload.now)))) }
{
    check_stamp(named, payload)?;
    let subject = subject(alloc, payload)?;
    let events = events(alloc, &subject, payload)?;
    let claims = claims(alloc, payload, audience, subject, events)?;
    Ok(claims)
}

/// The claims of the payload with this subject and these events.
fn claims(
    alloc: Global,
    payload: &Value,
    audience: Option<Items<Text>>,
    subject: Subject,
    events: Items<Event>,
) -> Result<Claims, Memory>
    requires { audience ≡ audience_in (Some (view payload.now)) }
    ensures { IfOk result (λ claims. claims ≡ record (claims_in (Some (view payload.now))) { subject = subject; events = events }) }
{
    let iss = text_in(alloc, payload, "iss")?;
    let jti = text_in(alloc, payload, "jti")?;
    Ok(Claims {
        iss,
        jti,
        iat: time_of(payload, "iat").unwrap_or(0),
        aud: or_nobody(alloc, audience),
        subject,
        events,
    })
}

/// The audience, nobody where there is none.
fn or_nobody(alloc: Global, audience: Option<Items<Text>>) -> Items<Text>
    ensures { result ≡ unwrap_or audience [] }
{
    match audience {
        Some(texts) => texts,
        None => Items::of(Vec::new(alloc)),
    }
}

/// The checks of the payload's identifier, of its time, and of what it mustn't have.
fn check_stamp(named: Option<&Text>, payload: &Value) -> Result<(), Refusal>
    ensures { result ≡ passed (stamp_checks (option_copied named.entry) (Some (view payload.now))) }
{
    if !is_identified(named, payload) {
        return Err(refused(Code::InvalidRequest, Spot::Jti));
    }
    if time_of(payload, "iat").is_none() {
        return Err(refused(Code::InvalidRequest, Spot::Iat));
    }
    if present(payload, "exp") {
        return Err(refused(Code::InvalidRequest, Spot::Exp));
    }
    if present(payload, "sub") {
        return Err(refused(Code::InvalidRequest, Spot::Sub));
    }
    Ok(())
}

/// Whether the payload has an identifier that isn't empty, the named one where one is named.
fn is_identified(named: Option<&Text>, payload: &Value) -> bool
    ensures { result ≡ is_filled_and_wanted (option_copied named.entry) (text_in (codes "jti") (Some (view payload.now))) }
{
    let Some(jti) = text_of(payload, "jti") else {
        return false;
    };
    if jti.is_empty() {
        return false;
    }
    match named {
        None => true,
        Some(name) => jti == name.as_str(),
    }
}

/// The subject of the payload.
fn subject(alloc: Global, payload: &Value) -> Result<Subject, Refusal>
    ensures { Answers Refusal.Memory result
        (unless_refused (first_failing (subject_checks (Some (view payload.now)))) (subject_in (Some (view payload.now)))) }
{
    let Some(named) = payload.get("sub_id") else {
        return Err(refused(Code::InvalidRequest, Spot::SubId));
    };
    match sig_subject::from_json(alloc, named) {
        Ok(subject) => Ok(subject),
        Err(SubjectFault::Memory) => Err(Refusal::Memory),
        Err(_) => Err(refused(Code::InvalidRequest, Spot::SubId)),
    }
}

/// The events of the payload about the subject.
fn events(alloc: Global, subject: &Subject, payload: &Value) -> Result<Items<Event>, Refusal>
    ensures { Answers Refusal.Memory result
        (unless_refused (first_failing (event_checks subject.now (Some (view payload.now)))) (unwrap_or (events_of subject.now (events_in (Some (view payload.now)))) [])) }
{
    let Some(members) = some_members(payload) else {
        return Err(refused(Code::InvalidRequest, Spot::Events));
    };
    match events_from(alloc, subject, members)? {
        Some(events) => Ok(events),
        None => Err(refused(Code::InvalidRequest, Spot::Event)),
    }
}

/// The members of the payload's `events`, none where it has no member.
fn some_members(payload: &Value) -> Option<&Map<String, Value>>
    ensures filled { is_some result ≡ where_there has_member (member_of (codes "events") (view payload.now)) }
    ensures members { IfSome result (λ members. members_view members.now.entries ≡ events_in (Some (view payload.now))) }
{
    let members = payload.get("events")?.as_object()?;
    if !has_members(members) {
        return None;
    }
    Some(members)
}

#[tactic(auto, using(sig_json::proofs::MemberLemmas::has_members_unless))]
fn has_members(members: &Map<String, Value>) -> bool
    ensures { result ≡ has_members (members_view members.now.entries) }
{
    !members.is_empty()
}

/// The events of these members about the subject, none where one of them is no event.
fn events_from(
    alloc: Global,
    subject: &Subject,
    members: &Map<String, Value>,
) -> Result<Option<Items<Event>>, Memory>
    ensures { IfOk result (λ events. events ≡ events_of subject.now (members_view members.now.entries)) }
{
    let mut events = Vec::new(alloc);
    for (uri, payload) in members.iter() {
        match sig_event::from_json(alloc, uri.as_str(), payload, subject) {
            Ok(event) => events.push(event)?,
            Err(EventFault::Memory) => return Err(Memory),
            Err(_) => return Ok(None),
        }
    }
    Ok(Some(Items::of(events)))
}
