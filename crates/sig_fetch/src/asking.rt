//! What a peer is asked, and where the request leads.

ghost use Rattle.std.specs.Prelude.{◌≡◌, ◌++◌, codes, filter_map, IfOk};
ghost use Rattle.std.specs.Option.{option_copied};
ghost use Rattle.sig_fetch.specs.Asks as spec;

use sig_delivery::write_ask;
use sig_http::Request;
use sig_json::limits::TOKENS_PER_PAGE;
use sig_json::{Items, Memory, Text};
use sig_outside::Place;
use sig_rxnode::{Peer, RxAnswer, RxCall, RxFault, RxTurn};
use sig_set::Code;
use sig_terms::{PollAsk, Reported};
use std::alloc::Global;

/// Where the links to a peer lead.
pub fn place_of(peer: &Peer) -> Option<&Place>
    ensures { option_copied result ≡ spec.place_of peer.now }
{
    if peer.endpoint.secure {
        peer.gateway.as_ref()
    } else {
        Some(&peer.endpoint.place)
    }
}

/// What is asked after the turns of a round: a page of tokens, with what became of the tokens of these turns.
pub fn ask_after(alloc: Global, turns: &[RxTurn]) -> Result<PollAsk, Memory>
    ensures { IfOk result (λ ask. ask ≡ spec.ask_after turns.now) }
{
    Ok(PollAsk {
        max: Some(TOKENS_PER_PAGE as u64),
        acks: acks_of(alloc, turns)?,
        errors: reports_of(alloc, turns)?,
    })
}

// The names of the tokens that were taken in these turns.
fn acks_of(alloc: Global, turns: &[RxTurn]) -> Result<Items<Text>, Memory>
    ensures { IfOk result (λ acks. acks ≡ filter_map spec.ack_of turns.now) }
{
    let mut acks = Vec::new(alloc);
    for turn in turns {
        if let Some(jti) = ack_of(turn) {
            acks.push(jti.copy(alloc)?)?;
        }
    }
    Ok(Items::of(acks))
}

fn ack_of(turn: &RxTurn) -> Option<&Text>
    ensures { option_copied result ≡ spec.ack_of turn.now }
{
    if is_taken(&turn.result) {
        named_in(&turn.call)
    } else {
        None
    }
}

// The tokens that were refused in these turns.
fn reports_of(alloc: Global, turns: &[RxTurn]) -> Result<Items<Reported>, Memory>
    ensures { IfOk result (λ reports. reports ≡ filter_map spec.report_of turns.now) }
{
    let mut reports = Vec::new(alloc);
    for turn in turns {
        if let Some(report) = report_of(alloc, turn)? {
            reports.push(report)?;
        }
    }
    Ok(Items::of(reports))
}

fn report_of(alloc: Global, turn: &RxTurn) -> Result<Option<Reported>, Memory>
    ensures { IfOk result (λ report. report ≡ spec.report_of turn.now) }
{
    let Some(jti) = named_in(&turn.call) else {
        return Ok(None);
    };
    match refusal_in(&turn.result) {
        Some(code) => Ok(Some(Reported {
            jti: jti.copy(alloc)?,
            code: Text::of(alloc, code.as_str())?,
        })),
        None => Ok(None),
    }
}

// The identifier under which a poll listed the token of a call.
fn named_in(call: &RxCall) -> Option<&Text>
    ensures { option_copied result ≡ spec.named_in call.now }
{
    match call {
        RxCall::Token { named, .. } => named.as_ref(),
        _ => None,
    }
}

fn is_taken(answered: &Result<RxAnswer, RxFault>) -> bool
    ensures { result ≡ spec.is_taken answered.now }
{
    matches!(answered, Ok(RxAnswer::Accepted | RxAnswer::Seen))
}

fn refusal_in(answered: &Result<RxAnswer, RxFault>) -> Option<Code>
    ensures { result ≡ spec.refusal_in answered.now }
{
    match answered {
        Ok(RxAnswer::Refused { code, .. }) => Some(*code),
        _ => None,
    }
}

/// The request of an ask (RFC 8936, section 2.4), with the bearer that the peer knows.
pub fn poll_request(alloc: Global, peer: &Peer, ask: &PollAsk) -> Result<Request, Memory>
    ensures { IfOk result (λ request. request ≡ spec.poll_of peer.now ask.now) }
{
    Ok(Request {
        method: Text::of(alloc, "POST")?,
        path: peer.endpoint.path.copy(alloc)?,
        query: Text::of(alloc, "")?,
        bearer: Some(authorization(alloc, &peer.bearer)?),
        close: true,
        body: write_ask(alloc, ask)?,
    })
}

// What shows a bearer token (RFC 6750, section 2.1).
fn authorization(alloc: Global, bearer: &Text) -> Result<Text, Memory>
    ensures { IfOk result (λ text. text ≡ codes "Bearer " ++ bearer.now) }
{
    let mut text = String::from_str(alloc, "Bearer ")?;
    text.push_str(bearer.as_str())?;
    Ok(Text::from_string(text))
}

/// Whether an ask reports something, so that its texts are in English.
pub fn reports(errors: &[Reported]) -> bool
    ensures { result ≡ spec.reports errors.now }
{
    !errors.is_empty()
}
