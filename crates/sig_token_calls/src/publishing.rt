//! How a publication is answered, and which tokens it makes.

ghost use Rattle.std.specs.Prelude.{◌≡◌, IfOk, IfSome, None};
ghost use Rattle.sig_json.specs.Answers.{Answers, result_map};
ghost use Rattle.sig_event.specs.News.{is_same_news};
ghost use Rattle.sig_terms.specs.declared.fact.Fact.TheVariants as fact;
ghost use Rattle.sig_calls.specs.Publishing as table;
ghost use Rattle.sig_calls.specs.Told.{outcome};
ghost use Rattle.sig_ledger.specs.Books.{sum_in};
ghost use Rattle.sig_ledger.specs.Room.{HasRoom};
ghost use Rattle.sig_ledger.specs.Steps.{reply_in};
ghost use Rattle.sig_token_calls.specs.Replies.{later_answer};

use crate::making::make_told;
use sig_event::{News, event_text};
use sig_json::{Memory, Text};
use sig_ledger::{Ledger, Publication, Step};
use sig_subject::identical;
use sig_terms::{Answer, Fact, PrepareFault};
use std::alloc::Global;

// Whether news say one event of one subject.
fn is_same(alloc: Global, one: &News, two: &News) -> Result<bool, Memory>
    ensures { IfOk result (λ same. same ≡ is_same_news one.now two.now) }
{
    if !identical(&one.subject, &two.subject) || one.event.uri() != two.event.uri() {
        return Ok(false);
    }
    let text = event_text(alloc, &one.event)?;
    let other = event_text(alloc, &two.event)?;
    Ok(text == other)
}

// The answer where the name was used before.
fn answer_again(
    alloc: Global,
    store_id: [u8; 16],
    publication: &Publication,
    news: &News,
) -> Result<Answer, Memory>
    ensures { IfOk result (λ answer. answer ≡ later_answer store_id publication.now news.now) }
{
    if !is_same(alloc, publication.news(), news)? {
        return Ok(Answer::Conflict);
    }
    let tokens = publication.issued(alloc)?;
    Ok(Answer::Published { store_id, tokens })
}

fn published_fact(alloc: Global, id: &Text, news: &News, now: u64) -> Result<Fact, Memory>
    ensures { IfOk result (λ f. f ≡ fact.Published id.now news.now now) }
{
    Ok(Fact::Published {
        id: id.copy(alloc)?,
        news: news.copy(alloc)?,
        time: now,
    })
}

// How the first publication of a name is answered.
fn publish_first(
    ledger: &mut Ledger,
    id: &Text,
    news: &News,
    now: u64,
) -> Result<Step, PrepareFault>
    ensures keeps { ledger.new.books ≡ ledger.old.books }
    ensures answers { Answers PrepareFault.Memory (result_map reply_in result)
        (outcome (table.published_after (sum_in ledger.old.books).parts id.now news.now now None)) }
    ensures room { IfOk result (λ step. IfSome step.change (HasRoom (sum_in ledger.new.books) ledger.new.room)) }
{
    let fact = published_fact(ledger.alloc(), id, news, now)?;
    let addressed = ledger.address(fact)?;
    let tokens = ledger.issued_of(&addressed)?;
    let answer = Answer::Published {
        store_id: ledger.store_id(),
        tokens,
    };
    make_told(ledger, answer, addressed)
}

/// How a publication is answered: the first answer again where its name was used for the same.
///
/// `Number` comes exactly where a token would get a number above 2^62, and after every refusal.
pub fn publish(ledger: &mut Ledger, id: &Text, news: &News, now: u64) -> Result<Step, PrepareFault>
    ensures keeps { ledger.new.books ≡ ledger.old.books }
    ensures answers { Answers PrepareFault.Memory (result_map reply_in result)
        (outcome (table.publishing (sum_in ledger.old.books).parts id.now news.now now)) }
    ensures room { IfOk result (λ step. IfSome step.change (HasRoom (sum_in ledger.new.books) ledger.new.room)) }
{
    if let Some(publication) = ledger.publication(id) {
        let answer = answer_again(ledger.alloc(), ledger.store_id(), publication, news)?;
        return Ok(Step::only(answer));
    }
    publish_first(ledger, id, news, now)
}
