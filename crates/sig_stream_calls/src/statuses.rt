//! How a client reads and sets the status of a stream (Shared Signals Framework 1.0, section 8.1.2).

ghost use Rattle.std.specs.Prelude.{◌≡◌, IfOk, IfSome, None, false, option_map};
ghost use Rattle.sig_json.specs.Answers.{Answers, result_map};
ghost use Rattle.sig_terms.specs.declared.answer.Answer.TheVariants as answer;
ghost use Rattle.sig_terms.specs.declared.fact.Fact.TheVariants as fact;
ghost use Rattle.sig_history.specs.Streams.{Stream};
ghost use Rattle.sig_calls.specs.Statuses as table;
ghost use Rattle.sig_calls.specs.Found.{told_by};
ghost use Rattle.sig_calls.specs.Told.{only, outcome, with_change};
ghost use Rattle.sig_accounts.specs.Owings.{stream_in};
ghost use Rattle.sig_ledger.specs.Books.{sum_in};
ghost use Rattle.sig_ledger.specs.Room.{HasRoom};
ghost use Rattle.sig_ledger.specs.Steps.{reply_in};

use crate::turn::{Turn, finish};
use sig_event::Status;
use sig_json::{Memory, Text, copy_optional};
use sig_ledger::{Account, Ledger, Step};
use sig_terms::{Answer, Fact, PrepareFault};
use std::alloc::Global;

// The status as it stands, with the reason of the fact that set it.
fn state_of(alloc: Global, account: &Account, stream: &Text) -> Result<Answer, Memory>
    ensures { IfOk result (λ a. a ≡ table.state_of stream.now account.now.owing.stream) }
{
    Ok(Answer::State {
        stream: stream.copy(alloc)?,
        status: account.status(),
        reason: copy_optional(alloc, account.reason())?,
        token: None,
    })
}

// The status of the stream that is found.
fn state_turn(alloc: Global, account: Option<&Account>, stream: &Text) -> Result<Turn, Memory>
    ensures { IfOk result (λ t. with_change t.answer t.change
        ≡ told_by (λ (s : Stream). only (table.state_of stream.now s)) (option_map stream_in (option_map (λ a. a.now.owing) account.entry))) }
{
    match account {
        None => Ok(Turn::not_found()),
        Some(account) => Ok(Turn::only(state_of(alloc, account, stream)?)),
    }
}

/// The status that a client sets.
#[derive(Drop)]
struct Wished<'a> {
    status: Status,
    reason: &'a Option<Text>,
    time: u64,
}

// What a client's new status is told: one that stands already changes nothing.
fn set_turn(
    alloc: Global,
    account: &Account,
    stream: &Text,
    wished: &Wished<'_>,
) -> Result<Turn, Memory>
    ensures { IfOk result (λ t. with_change t.answer t.change
        ≡ table.status_set stream.now wished.now.status wished.now.reason.now wished.now.time account.now.owing.stream) }
{
    if account.status() == wished.status {
        return Ok(Turn::only(state_of(alloc, account, stream)?));
    }
    let answer = state_set(alloc, stream, wished)?;
    Ok(Turn {
        answer,
        change: Some(status_set(alloc, stream, wished)?),
    })
}

// What is answered where a status is set.
fn state_set(alloc: Global, stream: &Text, wished: &Wished<'_>) -> Result<Answer, Memory>
    ensures { IfOk result (λ a. a ≡ answer.State stream.now wished.now.status wished.now.reason.now None) }
{
    let stream = stream.copy(alloc)?;
    Ok(Answer::State {
        stream,
        status: wished.status,
        reason: copy_optional(alloc, wished.reason)?,
        token: None,
    })
}

// The fact that a client set a status.
fn status_set(alloc: Global, stream: &Text, wished: &Wished<'_>) -> Result<Fact, Memory>
    ensures { IfOk result (λ f. f ≡ fact.StatusSet stream.now wished.now.status wished.now.reason.now false wished.now.time) }
{
    let stream = stream.copy(alloc)?;
    Ok(Fact::StatusSet {
        stream,
        status: wished.status,
        reason: copy_optional(alloc, wished.reason)?,
        operator: false,
        time: wished.time,
    })
}

// The same on the stream that is found.
fn set_found(
    alloc: Global,
    account: Option<&Account>,
    stream: &Text,
    wished: &Wished<'_>,
) -> Result<Turn, Memory>
    ensures { IfOk result (λ t. with_change t.answer t.change
        ≡ told_by (table.status_set stream.now wished.now.status wished.now.reason.now wished.now.time) (option_map stream_in (option_map (λ a. a.now.owing) account.entry))) }
{
    match account {
        None => Ok(Turn::not_found()),
        Some(account) => set_turn(alloc, account, stream, wished),
    }
}

/// How a client reads a status, with the reason of the fact that set it.
pub fn get_status(ledger: &mut Ledger, client: &Text, stream: &Text) -> Result<Step, PrepareFault>
    ensures keeps { ledger.new.books ≡ ledger.old.books }
    ensures answers { Answers PrepareFault.Memory (result_map reply_in result) (outcome (table.reading_status (sum_in ledger.old.books).parts client.now stream.now)) }
    ensures room { IfOk result (λ step. IfSome step.change (HasRoom (sum_in ledger.new.books) ledger.new.room)) }
{
    let turn = state_turn(
        ledger.alloc(),
        ledger.client_account(client, stream),
        stream,
    )?;
    finish(ledger, turn)
}

/// How a client sets a status. One that stands already changes nothing, and its reason stays too.
pub fn set_status(
    ledger: &mut Ledger,
    client: &Text,
    stream: &Text,
    status: Status,
    reason: &Option<Text>,
    now: u64,
) -> Result<Step, PrepareFault>
    ensures keeps { ledger.new.books ≡ ledger.old.books }
    ensures answers { Answers PrepareFault.Memory (result_map reply_in result) (outcome (table.setting_status (sum_in ledger.old.books).parts client.now stream.now status reason.now now)) }
    ensures room { IfOk result (λ step. IfSome step.change (HasRoom (sum_in ledger.new.books) ledger.new.room)) }
{
    let wished = Wished {
        status,
        reason,
        time: now,
    };
    let account = ledger.client_account(client, stream);
    let turn = set_found(ledger.alloc(), account, stream, &wished)?;
    finish(ledger, turn)
}
