//! Whether streams, with what they owe, come to the same. What a token tells is compared, and not how it is held: a
//! publication may say what a verification says.

ghost use Rattle.std.specs.Prelude.{◌≡◌, ◌↔◌, All, IsTrue, length, map};
ghost use Rattle.sig_history.specs.Facts as facts;
ghost use Rattle.sig_accounts.specs.Owings.{ArePlaced, IsPlaced, news_of, owing_in, telling_of, told_by};
ghost use Rattle.sig_accounts.specs.declared.debt.Debt.{Debt};

use crate::account::Account;
use crate::debt::{Debt, Said};
use crate::publication::Publication;
use sig_event::{Event, News, Status};
use sig_json::{Same, Text};
use sig_subject::{Plain, Simple, Subject};

// Whether a subject is a stream itself.
fn is_stream(subject: &Subject, stream: &Text) -> bool
    ensures { IsTrue result ↔ (subject.now ≡ facts.stream_subject stream.now) }
{
    match subject {
        Subject::Simple(Simple::Plain(Plain::Opaque { id })) => id.same(stream),
        _ => false,
    }
}

// Whether news say that a stream is verified.
fn is_verified(news: &News, stream: &Text, state: &Option<Text>) -> bool
    ensures { IsTrue result ↔ (news.now ≡ facts.verified_news stream.now state.now) }
{
    match &news.event {
        Event::Verification { state: sent_back } => {
            is_stream(&news.subject, stream) && sent_back.same(state)
        }
        _ => false,
    }
}

// Whether news say that the status of a stream was set.
fn is_updated(news: &News, stream: &Text, status: Status, reason: &Option<Text>) -> bool
    ensures { IsTrue result ↔ (news.now ≡ facts.updated_news stream.now status reason.now) }
{
    match &news.event {
        Event::StreamUpdated {
            status: new,
            reason: why,
        } => is_stream(&news.subject, stream) && new.same(&status) && why.same(reason),
        _ => false,
    }
}

// Whether the news at a place are those of a debt.
fn says_news(published: &[Publication], stream: &Text, news: &News, said: &Said) -> bool
    requires { IsPlaced (length published.now) said.now }
    ensures { IsTrue result ↔ (news.now ≡ news_of published.now stream.now said.now) }
{
    match said {
        Said::Published { place } => news.same(published[*place].news()),
        Said::Verified { state } => is_verified(news, stream, state),
        Said::Updated { status, reason } => is_updated(news, stream, *status, reason),
    }
}

// Whether two debts of a stream tell the same news.
fn same_said(published: &[Publication], stream: &Text, one: &Said, other: &Said) -> bool
    requires one { IsPlaced (length published.now) one.now }
    requires other { IsPlaced (length published.now) other.now }
    ensures { IsTrue result ↔ (news_of published.now stream.now one.now ≡ news_of published.now stream.now other.now) }
{
    match (one, other) {
        (Said::Published { place }, _) => says_news(
            published,
            stream,
            published[*place].news(),
            other,
        ),
        (_, Said::Published { place }) => says_news(
            published,
            stream,
            published[*place].news(),
            one,
        ),
        (Said::Verified { state }, Said::Verified { state: sent_back }) => state.same(sent_back),
        (
            Said::Updated { status, reason },
            Said::Updated {
                status: new,
                reason: why,
            },
        ) => status.same(new) && reason.same(why),
        _ => false,
    }
}

// Whether two debts of a stream come to the same token.
fn same_debt(published: &[Publication], stream: &Text, one: &Debt, other: &Debt) -> bool
    requires one { IsPlaced (length published.now) one.now.said }
    requires other { IsPlaced (length published.now) other.now.said }
    ensures { IsTrue result ↔ (told_by published.now stream.now one.now ≡ told_by published.now stream.now other.now) }
{
    one.number == other.number
        && one.time == other.time
        && same_said(published, stream, &one.said, &other.said)
}

// Whether debts of a stream come to the same tokens.
fn same_debts(published: &[Publication], stream: &Text, some: &[Debt], others: &[Debt]) -> bool
    requires some { All (λ (d : Debt). IsPlaced (length published.now) d.said) some.now }
    requires others { All (λ (d : Debt). IsPlaced (length published.now) d.said) others.now }
    ensures { IsTrue result ↔ (map (told_by published.now stream.now) some.now ≡ map (told_by published.now stream.now) others.now) }
{
    if some.len() != others.len() {
        return false;
    }
    for i in 0..some.len() {
        if !same_debt(published, stream, &some[i], &others[i]) {
            return false;
        }
    }
    true
}

// Whether two streams come to the same.
fn same_account(published: &[Publication], one: &Account, other: &Account) -> bool
    requires one { ArePlaced (length published.now) one.now.owing }
    requires other { ArePlaced (length published.now) other.now.owing }
    ensures { IsTrue result ↔ (telling_of published.now one.now.owing ≡ telling_of published.now other.now.owing) }
{
    one.same_stream(other) && same_debts(published, &one.conf().stream, one.owed(), other.owed())
}

/// Whether streams come to the same, over what was published. It takes no memory.
pub fn same_accounts(published: &[Publication], some: &[Account], others: &[Account]) -> bool
    requires some { All (ArePlaced (length published.now)) (map owing_in some.now) }
    requires others { All (ArePlaced (length published.now)) (map owing_in others.now) }
    ensures { IsTrue result ↔ (map (telling_of published.now) (map owing_in some.now) ≡ map (telling_of published.now) (map owing_in others.now)) }
{
    if some.len() != others.len() {
        return false;
    }
    for i in 0..some.len() {
        if !same_account(published, &some[i], &others[i]) {
            return false;
        }
    }
    true
}
