//! How a poll is answered, and what it settles (RFC 8936, section 2.4).

ghost use Rattle.std.specs.Prelude.{◌≡◌, ◌++◌, All, IfOk, IfSome, Ok, OnOk, length, nat_eq};
ghost use Rattle.std.specs.Option.{option_to_list};
ghost use Rattle.sig_json.specs.Answers.{Answers, result_map};
ghost use Rattle.sig_calls.specs.Polling as table;
ghost use Rattle.sig_calls.specs.Told.{outcome};
ghost use Rattle.indexmap.specs.IndexMap.{get};
ghost use Rattle.sig_accounts.specs.Owings.{IsPlaced};
ghost use Rattle.sig_ledger.specs.Books.{sum_in};
ghost use Rattle.sig_ledger.specs.Room.{HasRoom};
ghost use Rattle.sig_ledger.specs.Steps.{reply_in};
ghost use Rattle.sig_token_calls.specs.Replies.{polled_reply, settled_debts, told_as};
ghost use Rattle.sig_token_calls.specs.Verdicts.{item_of};

use crate::offering::{first_offered, is_pushed};
use crate::reply::Reply;
use crate::settling::settled_change;
use crate::verdicts::{highest, lowest, read_verdicts, settled_item, token_prefix};
use indexmap::IndexMap;
use sig_json::limits::TOKENS_PER_PAGE;
use sig_json::{Memory, Text};
use sig_ledger::{Account, Ledger, Publication, Step};
use sig_terms::{Answer, PollAsk, PrepareFault, SettledItem};
use std::alloc::Global;

// Adds what a poll settles of the token of this number.
fn push_settled(
    alloc: Global,
    verdicts: &IndexMap<u64, Option<Text>>,
    number: u64,
    items: &mut Vec<SettledItem>,
) -> Result<(), Memory>
    ensures { OnOk result (items.new.items ≡ items.old.items ++ option_to_list (item_of number (get nat_eq verdicts.now number))) }
{
    if let Some(item) = settled_item(alloc, verdicts, number)? {
        items.push(item)?;
    }
    Ok(())
}

// What a poll settles of what a stream owes, in order of number. Of what is owed it looks at what stands between the first and the
// last that the poll names.
fn settled_debts(
    alloc: Global,
    store_id: [u8; 16],
    account: &Account,
    ask: &PollAsk,
) -> Result<Vec<SettledItem>, Memory>
    ensures { IfOk result (λ v. v.items ≡ settled_debts ask.now store_id account.now.owing.stream.conf.stream account.now.owing.owed) }
{
    let stream = account.conf().stream.as_str();
    let prefix = token_prefix(alloc, store_id, stream)?;
    let verdicts = read_verdicts(alloc, prefix.as_str(), ask)?;
    let owed = account.owed_between(lowest(&verdicts), highest(&verdicts));
    let mut items = Vec::new(alloc);
    for debt in owed {
        push_settled(alloc, &verdicts, debt.number, &mut items)?;
    }
    Ok(items)
}

// How many tokens a page has at most.
fn page_size(ask: &PollAsk) -> usize
    ensures { result ≡ table.page_size ask.now }
{
    match ask.max {
        Some(max) if max < TOKENS_PER_PAGE as u64 => max as usize,
        _ => TOKENS_PER_PAGE,
    }
}

// How a poll of a stream is answered.
fn poll_account(
    alloc: Global,
    store_id: [u8; 16],
    published: &[Publication],
    account: &Account,
    stream: &Text,
    ask: &PollAsk,
) -> Result<Reply, Memory>
    requires { All (λ d. IsPlaced (length published.now) d.said) account.now.owing.owed }
    ensures { IfOk result (λ r. r ≡ polled_reply store_id published.now stream.now ask.now account.now.owing) }
{
    let items = settled_debts(alloc, store_id, account, ask)?;
    let size = page_size(ask);
    let page = first_offered(alloc, store_id, published, account, items.as_slice(), size)?;
    let change = settled_change(alloc, stream, items)?;
    Ok(Reply {
        answer: Answer::Sets {
            tokens: page.tokens,
            more: page.more,
        },
        change,
    })
}

// How a poll of a client's stream is answered.
fn polled(ledger: &Ledger, client: &Text, stream: &Text, ask: &PollAsk) -> Result<Reply, Memory>
    ensures { IfOk result (λ r. outcome (table.polling (sum_in ledger.now.books) client.now stream.now ask.now) ≡ Ok (told_as r)) }
{
    match ledger.client_account(client, stream) {
        None => Ok(Reply::only(Answer::NotFound)),
        Some(account) => {
            if is_pushed(account) {
                return Ok(Reply::only(Answer::NotFound));
            }
            poll_account(
                ledger.alloc(),
                ledger.store_id(),
                ledger.published(),
                account,
                stream,
                ask,
            )
        }
    }
}

/// How a poll is answered, and what it settles (RFC 8936, section 2.4).
pub fn poll(
    ledger: &mut Ledger,
    client: &Text,
    stream: &Text,
    ask: &PollAsk,
) -> Result<Step, PrepareFault>
    ensures keeps { ledger.new.books ≡ ledger.old.books }
    ensures answers { Answers PrepareFault.Memory (result_map reply_in result)
        (outcome (table.polling (sum_in ledger.old.books) client.now stream.now ask.now)) }
    ensures room { IfOk result (λ step. IfSome step.change (HasRoom (sum_in ledger.new.books) ledger.new.room)) }
{
    let reply = polled(ledger, client, stream, ask)?;
    let step = ledger.step(reply.answer, reply.change)?;
    Ok(step)
}
