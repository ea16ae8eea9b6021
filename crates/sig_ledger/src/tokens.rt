//! What facts tell, and tokens with what they say.

ghost use Rattle.std.specs.Prelude.{◌≡◌, ◌∷◌, [], IfOk, length};
ghost use Rattle.sig_history.specs.Facts as facts;
ghost use Rattle.sig_history.specs.Streams as streams;
ghost use Rattle.sig_accounts.specs.Owings as owings;
ghost use Rattle.sig_accounts.specs.Owings.{IsPlaced, made_of};

use sig_accounts::{Account, Debt, Publication, Said, jti_text};
use sig_event::{Claims, Event, News, Status};
use sig_json::{Items, Memory, Text, copy_items, copy_optional};
use sig_subject::{Plain, Simple, Subject};
use sig_terms::{Delivery, Endpoint, Fact, StreamConf, Token};
use std::alloc::Global;

/// What a token of a stream and number says (RFC 8417, section 2.2).
pub fn claims_for(
    alloc: Global,
    store_id: [u8; 16],
    conf: &StreamConf,
    number: u64,
    time: u64,
    news: &News,
) -> Result<Claims, Memory>
    ensures { IfOk result (λ c. c ≡ streams.claims_for store_id conf.now number time news.now) }
{
    let iss = conf.iss.copy(alloc)?;
    let jti = jti_text(alloc, store_id, conf.stream.as_str(), number)?;
    let aud = copy_items(alloc, &conf.aud)?;
    let events = one_event(alloc, &news.event)?;
    Ok(Claims {
        iss,
        jti,
        iat: time,
        aud,
        subject: news.subject.copy(alloc)?,
        events,
    })
}

// A list of one event.
fn one_event(alloc: Global, event: &Event) -> Result<Items<Event>, Memory>
    ensures { IfOk result (λ events. events ≡ event.now ∷ []) }
{
    let mut events = Vec::new(alloc);
    events.push(event.copy(alloc)?)?;
    Ok(Items::of(events))
}

/// When the tokens of a fact are made; facts that make none have no time that is asked. It takes no memory.
pub fn time_of(fact: &Fact) -> u64
    ensures { result ≡ facts.time_of fact.now }
{
    match fact {
        Fact::Created { time, .. }
        | Fact::StatusSet { time, .. }
        | Fact::Published { time, .. }
        | Fact::Asked { time, .. } => *time,
        Fact::Configured { .. }
        | Fact::Listed { .. }
        | Fact::Unlisted { .. }
        | Fact::Deleted { .. }
        | Fact::Settled { .. } => 0,
    }
}

/// The news that a fact tells; none where it tells none.
pub fn news_of(alloc: Global, fact: &Fact) -> Result<Option<News>, Memory>
    ensures { IfOk result (λ n. n ≡ facts.said_by fact.now) }
{
    match fact {
        Fact::StatusSet {
            stream,
            status,
            reason,
            ..
        } => Ok(Some(updated_news(alloc, stream, *status, reason)?)),
        Fact::Published { news, .. } => Ok(Some(news.copy(alloc)?)),
        Fact::Asked { stream, state, .. } => Ok(Some(verified_news(alloc, stream, state)?)),
        _ => Ok(None),
    }
}

// Whom it is about what is said of a stream itself (Shared Signals Framework 1.0, section 8.1.4).
fn stream_subject(alloc: Global, stream: &Text) -> Result<Subject, Memory>
    ensures { IfOk result (λ s. s ≡ facts.stream_subject stream.now) }
{
    let id = stream.copy(alloc)?;
    Ok(Subject::Simple(Simple::Plain(Plain::Opaque { id })))
}

// That a stream is verified (Shared Signals Framework 1.0, section 8.1.4).
fn verified_news(alloc: Global, stream: &Text, state: &Option<Text>) -> Result<News, Memory>
    ensures { IfOk result (λ n. n ≡ facts.verified_news stream.now state.now) }
{
    let subject = stream_subject(alloc, stream)?;
    let state = copy_optional(alloc, state)?;
    Ok(News {
        subject,
        event: Event::Verification { state },
    })
}

// That the status of a stream was set (Shared Signals Framework 1.0, section 8.1.5).
fn updated_news(
    alloc: Global,
    stream: &Text,
    status: Status,
    reason: &Option<Text>,
) -> Result<News, Memory>
    ensures { IfOk result (λ n. n ≡ facts.updated_news stream.now status reason.now) }
{
    let subject = stream_subject(alloc, stream)?;
    let reason = copy_optional(alloc, reason)?;
    Ok(News {
        subject,
        event: Event::StreamUpdated { status, reason },
    })
}

// What the token of a debt says.
fn owed_claims(
    alloc: Global,
    store_id: [u8; 16],
    published: &[Publication],
    conf: &StreamConf,
    debt: &Debt,
) -> Result<Claims, Memory>
    requires { IsPlaced (length published.now) debt.now.said }
    ensures { IfOk result (λ c. c ≡ streams.claims_for store_id conf.now debt.now.number debt.now.time
        (owings.news_of published.now conf.now.stream debt.now.said)) }
{
    match &debt.said {
        Said::Published { place } => {
            let news = published[*place].news();
            claims_for(alloc, store_id, conf, debt.number, debt.time, news)
        }
        Said::Verified { state } => verified_claims(alloc, store_id, conf, debt, state),
        Said::Updated { status, reason } => {
            updated_claims(alloc, store_id, conf, debt, *status, reason)
        }
    }
}

// What the token of a debt says where the stream is verified.
fn verified_claims(
    alloc: Global,
    store_id: [u8; 16],
    conf: &StreamConf,
    debt: &Debt,
    state: &Option<Text>,
) -> Result<Claims, Memory>
    ensures { IfOk result (λ c. c ≡ streams.claims_for store_id conf.now debt.now.number debt.now.time
        (facts.verified_news conf.now.stream state.now)) }
{
    let news = verified_news(alloc, &conf.stream, state)?;
    claims_for(alloc, store_id, conf, debt.number, debt.time, &news)
}

// What the token of a debt says where the stream's status was set.
fn updated_claims(
    alloc: Global,
    store_id: [u8; 16],
    conf: &StreamConf,
    debt: &Debt,
    status: Status,
    reason: &Option<Text>,
) -> Result<Claims, Memory>
    ensures { IfOk result (λ c. c ≡ streams.claims_for store_id conf.now debt.now.number debt.now.time
        (facts.updated_news conf.now.stream status reason.now)) }
{
    let news = updated_news(alloc, &conf.stream, status, reason)?;
    claims_for(alloc, store_id, conf, debt.number, debt.time, &news)
}

// Where a stream's tokens are sent; nowhere where the receiver asks for them.
fn endpoint_in(alloc: Global, delivery: &Delivery) -> Result<Option<Endpoint>, Memory>
    ensures { IfOk result (λ e. e ≡ streams.endpoint_in delivery.now) }
{
    match delivery {
        Delivery::Poll => Ok(None),
        Delivery::Push { endpoint, .. } => Ok(Some(endpoint.copy(alloc)?)),
    }
}

// The `authorization` field that a stream's tokens are sent with.
fn authorization_in(alloc: Global, delivery: &Delivery) -> Result<Option<Text>, Memory>
    ensures { IfOk result (λ a. a ≡ streams.authorization_in delivery.now) }
{
    match delivery {
        Delivery::Poll => Ok(None),
        Delivery::Push { authorization, .. } => copy_optional(alloc, authorization),
    }
}

/// A token that a stream owes, as it is handed out.
pub fn owed_token(
    alloc: Global,
    store_id: [u8; 16],
    published: &[Publication],
    account: &Account,
    debt: &Debt,
) -> Result<Token, Memory>
    requires { IsPlaced (length published.now) debt.now.said }
    ensures { IfOk result (λ t. t ≡ streams.token_of account.now.owing.stream.conf.delivery (made_of store_id published.now account.now.owing.stream debt.now)) }
{
    let conf = account.conf();
    let stream = conf.stream.copy(alloc)?;
    let endpoint = endpoint_in(alloc, &conf.delivery)?;
    let authorization = authorization_in(alloc, &conf.delivery)?;
    Ok(Token {
        stream,
        number: debt.number,
        claims: owed_claims(alloc, store_id, published, conf, debt)?,
        endpoint,
        authorization,
    })
}
