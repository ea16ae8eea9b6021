//! How a client adds subjects to a stream and removes them (Shared Signals Framework 1.0, section 8.1.3).

ghost use Rattle.std.specs.Prelude.{◌≡◌, IfOk, IfSome, option_map};
ghost use Rattle.sig_json.specs.Answers.{Answers, result_map};
ghost use Rattle.sig_history.specs.Streams.{Stream};
ghost use Rattle.sig_calls.specs.Subjects as table;
ghost use Rattle.sig_calls.specs.Found.{told_by};
ghost use Rattle.sig_calls.specs.Told.{only, outcome, with_change};
ghost use Rattle.sig_accounts.specs.Owings.{stream_in};
ghost use Rattle.sig_ledger.specs.Books.{sum_in};
ghost use Rattle.sig_ledger.specs.Room.{HasRoom};
ghost use Rattle.sig_ledger.specs.Steps.{reply_in};
ghost use Rattle.sig_stream_calls.specs.Lists.{has_all};
ghost use Rattle.std.specs.Prelude.{if◌then◌else◌};
ghost use Rattle.sig_terms.specs.declared.answer.Answer.TheVariants as answer;

use crate::turn::{Turn, finish};
use sig_json::{Memory, Text};
use sig_ledger::{Account, Ledger, Step};
use sig_subject::Subject;
use sig_terms::{Answer, Defaults, Fact, PrepareFault};
use std::alloc::Global;

// The fact that puts a subject on the list, unless it is there, or takes it off, where it is there.
fn list_change(
    alloc: Global,
    account: &Account,
    stream: &Text,
    subject: &Subject,
    on: bool,
) -> Result<Option<Fact>, Memory>
    ensures { IfOk result (λ change. change ≡ (if on then table.listed_change stream.now subject.now account.now.owing.stream
        else table.unlisted_change stream.now subject.now account.now.owing.stream)) }
{
    if account.is_listed(subject) == on {
        return Ok(None);
    }
    let stream = stream.copy(alloc)?;
    let subject = subject.copy(alloc)?;
    Ok(Some(if on {
        Fact::Listed { stream, subject }
    } else {
        Fact::Unlisted { stream, subject }
    }))
}

// How a client adds a subject to the stream that is found.
fn add_turn(
    alloc: Global,
    account: Option<&Account>,
    stream: &Text,
    subject: &Subject,
) -> Result<Turn, Memory>
    ensures { IfOk result (λ t. with_change t.answer t.change
        ≡ told_by (λ (s : Stream). with_change answer.Added (table.added_change s.conf.defaults stream.now subject.now s)) (option_map stream_in (option_map (λ a. a.now.owing) account.entry))) }
{
    match account {
        None => Ok(Turn::not_found()),
        Some(account) => Ok(Turn {
            answer: Answer::Added,
            change: list_change(alloc, account, stream, subject, !has_all(account))?,
        }),
    }
}

// How a client removes a subject from the stream that is found.
fn remove_turn(
    alloc: Global,
    account: Option<&Account>,
    stream: &Text,
    subject: &Subject,
) -> Result<Turn, Memory>
    ensures { IfOk result (λ t. with_change t.answer t.change
        ≡ told_by (λ (s : Stream). with_change answer.Removed (table.removed_change s.conf.defaults stream.now subject.now s)) (option_map stream_in (option_map (λ a. a.now.owing) account.entry))) }
{
    match account {
        None => Ok(Turn::not_found()),
        Some(account) => Ok(Turn {
            answer: Answer::Removed,
            change: list_change(alloc, account, stream, subject, has_all(account))?,
        }),
    }
}

// Whether the stream has all subjects by default, so that its list is of those that were removed.
fn has_all(account: &Account) -> bool
    ensures { result ≡ has_all account.now.owing.stream.conf.defaults }
{
    account.conf().defaults == Defaults::All
}

/// How a client adds a subject. One that is there already changes nothing.
pub fn add(
    ledger: &mut Ledger,
    client: &Text,
    stream: &Text,
    subject: &Subject,
) -> Result<Step, PrepareFault>
    ensures keeps { ledger.new.books ≡ ledger.old.books }
    ensures answers { Answers PrepareFault.Memory (result_map reply_in result) (outcome (table.adding (sum_in ledger.old.books).parts client.now stream.now subject.now)) }
    ensures room { IfOk result (λ step. IfSome step.change (HasRoom (sum_in ledger.new.books) ledger.new.room)) }
{
    let account = ledger.client_account(client, stream);
    let turn = add_turn(ledger.alloc(), account, stream, subject)?;
    finish(ledger, turn)
}

/// How a client removes a subject. One that isn't there changes nothing.
pub fn remove(
    ledger: &mut Ledger,
    client: &Text,
    stream: &Text,
    subject: &Subject,
) -> Result<Step, PrepareFault>
    ensures keeps { ledger.new.books ≡ ledger.old.books }
    ensures answers { Answers PrepareFault.Memory (result_map reply_in result) (outcome (table.removing (sum_in ledger.old.books).parts client.now stream.now subject.now)) }
    ensures room { IfOk result (λ step. IfSome step.change (HasRoom (sum_in ledger.new.books) ledger.new.room)) }
{
    let account = ledger.client_account(client, stream);
    let turn = remove_turn(ledger.alloc(), account, stream, subject)?;
    finish(ledger, turn)
}
