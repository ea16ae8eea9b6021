//! How the answer to a token that was brought to its receiver is taken (RFC 8935, section 2).

ghost use Rattle.std.specs.Prelude.{◌≡◌, IfOk, IfSome, Some, length};
ghost use Rattle.std.specs.Option.{option_to_list};
ghost use Rattle.sig_json.specs.Answers.{Answers, result_map};
ghost use Rattle.sig_calls.specs.Settling as table;
ghost use Rattle.sig_calls.specs.Told as told;
ghost use Rattle.sig_terms.specs.declared.answer.Answer.TheVariants as answer;
ghost use Rattle.sig_accounts.specs.Owings.{owing_named};
ghost use Rattle.sig_ledger.specs.Books.{sum_in};
ghost use Rattle.sig_ledger.specs.Room.{HasRoom};
ghost use Rattle.sig_ledger.specs.Steps.{reply_in};
ghost use Rattle.sig_token_calls.specs.Replies.{items_for};

use crate::reply::Reply;
use sig_json::{Items, Memory, Text};
use sig_ledger::{Account, Ledger, Step};
use sig_terms::{Answer, Fact, Outcome, PrepareFault, SettledItem};
use std::alloc::Global;

// The item of an answer that settles.
fn outcome_item(
    alloc: Global,
    number: u64,
    outcome: &Outcome,
) -> Result<Option<SettledItem>, Memory>
    ensures { IfOk result (λ item. item ≡ table.outcome_item number outcome.now) }
{
    match outcome {
        Outcome::Accepted => Ok(Some(SettledItem { number, code: None })),
        Outcome::Reported { code } => Ok(Some(SettledItem {
            number,
            code: Some(code.copy(alloc)?),
        })),
        Outcome::Keep => Ok(None),
    }
}

fn outcome_items(alloc: Global, number: u64, outcome: &Outcome) -> Result<Vec<SettledItem>, Memory>
    ensures { IfOk result (λ v. v.items ≡ option_to_list (table.outcome_item number outcome.now)) }
{
    let mut items = Vec::new(alloc);
    if let Some(item) = outcome_item(alloc, number, outcome)? {
        items.push(item)?;
    }
    Ok(items)
}

// What the answer settles, where the stream owes the token.
fn settled_on(
    ledger: &Ledger,
    stream: &Text,
    number: u64,
    outcome: &Outcome,
) -> Result<Vec<SettledItem>, Memory>
    ensures { IfOk result (λ v. v.items ≡ items_for (owing_named stream.now ledger.now.books.owings) number outcome.now) }
{
    match ledger.account(stream.as_str()) {
        Some(account) => owed_items(ledger.alloc(), account, number, outcome),
        None => Ok(Vec::new(ledger.alloc())),
    }
}

fn owed_items(
    alloc: Global,
    account: &Account,
    number: u64,
    outcome: &Outcome,
) -> Result<Vec<SettledItem>, Memory>
    ensures { IfOk result (λ v. v.items ≡ items_for (Some account.now.owing) number outcome.now) }
{
    if !account.owes(number) {
        return Ok(Vec::new(alloc));
    }
    let items = outcome_items(alloc, number, outcome)?;
    Ok(items)
}

/// The fact of a settlement, where something is settled.
pub(crate) fn settled_change(
    alloc: Global,
    stream: &Text,
    items: Vec<SettledItem>,
) -> Result<Option<Fact>, Memory>
    ensures { IfOk result (λ f. f ≡ table.settled_fact stream.now items.items) }
{
    if items.is_empty() {
        return Ok(None);
    }
    Ok(Some(Fact::Settled {
        stream: stream.copy(alloc)?,
        items: Items::of(items),
    }))
}

// How many tokens were settled, and the fact of it.
fn settled_reply(alloc: Global, stream: &Text, items: Vec<SettledItem>) -> Result<Reply, Memory>
    ensures { IfOk result (λ r. r ≡ record { answer = answer.Settled (length items.items); change = table.settled_fact stream.now items.items }) }
{
    let count = items.len() as u64;
    let change = settled_change(alloc, stream, items)?;
    Ok(Reply {
        answer: Answer::Settled { count },
        change,
    })
}

/// How an answer to a token is taken (RFC 8935, section 2).
pub fn settle(
    ledger: &mut Ledger,
    stream: &Text,
    number: u64,
    outcome: &Outcome,
) -> Result<Step, PrepareFault>
    ensures keeps { ledger.new.books ≡ ledger.old.books }
    ensures answers { Answers PrepareFault.Memory (result_map reply_in result)
        (told.outcome (table.settling (sum_in ledger.old.books) stream.now number outcome.now)) }
    ensures room { IfOk result (λ step. IfSome step.change (HasRoom (sum_in ledger.new.books) ledger.new.room)) }
{
    let items = settled_on(ledger, stream, number, outcome)?;
    let reply = settled_reply(ledger.alloc(), stream, items)?;
    let step = ledger.step(reply.answer, reply.change)?;
    Ok(step)
}
