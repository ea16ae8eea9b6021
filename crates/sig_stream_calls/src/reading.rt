//! How a client reads the configurations of its streams (Shared Signals Framework 1.0, section 8.1.1.2).

ghost use Rattle.std.specs.Prelude.{◌≡◌, IfOk, IfSome, map, option_map};
ghost use Rattle.sig_json.specs.Answers.{Answers, result_map};
ghost use Rattle.sig_history.specs.Streams.{Stream};
ghost use Rattle.sig_calls.specs.Configuring as table;
ghost use Rattle.sig_calls.specs.Found.{told_by};
ghost use Rattle.sig_calls.specs.Told.{only, outcome, with_change};
ghost use Rattle.sig_accounts.specs.Owings.{owing_in, stream_in};
ghost use Rattle.sig_ledger.specs.Books.{sum_in};
ghost use Rattle.sig_ledger.specs.Room.{HasRoom};
ghost use Rattle.sig_ledger.specs.Steps.{reply_in};
ghost use Rattle.sig_terms.specs.declared.answer.Answer.TheVariants as answer;

use crate::turn::{Turn, finish};
use sig_json::{Items, Memory, Text};
use sig_ledger::{Account, Ledger, Step};
use sig_terms::{Answer, PrepareFault, StreamConf};
use std::alloc::Global;

// The configurations of a client's streams.
fn confs_of(alloc: Global, accounts: &[Account], client: &Text) -> Result<Items<StreamConf>, Memory>
    ensures { IfOk result (λ items. items ≡ table.confs_of client.now (map stream_in (map owing_in accounts.now))) }
{
    let mut confs = Vec::new(alloc);
    for account in accounts {
        if account.client() == client.as_str() {
            confs.push(account.conf().copy(alloc)?)?;
        }
    }
    Ok(Items::of(confs))
}

// The configuration of the stream that is found.
fn conf_turn(alloc: Global, account: Option<&Account>) -> Result<Turn, Memory>
    ensures { IfOk result (λ t. with_change t.answer t.change
        ≡ told_by (λ (s : Stream). only (answer.Conf s.conf)) (option_map stream_in (option_map (λ a. a.now.owing) account.entry))) }
{
    match account {
        None => Ok(Turn::not_found()),
        Some(account) => {
            let conf = account.conf().copy(alloc)?;
            Ok(Turn::only(Answer::Conf { conf }))
        }
    }
}

/// How a client reads all its streams: in order of number.
pub fn read_all(ledger: &mut Ledger, client: &Text) -> Result<Step, PrepareFault>
    ensures keeps { ledger.new.books ≡ ledger.old.books }
    ensures answers { Answers PrepareFault.Memory (result_map reply_in result) (outcome (table.reading_all (sum_in ledger.old.books).parts client.now)) }
    ensures room { IfOk result (λ step. IfSome step.change (HasRoom (sum_in ledger.new.books) ledger.new.room)) }
{
    let confs = confs_of(ledger.alloc(), ledger.accounts(), client)?;
    finish(ledger, Turn::only(Answer::Confs { confs }))
}

/// How a client reads one stream.
pub fn read(ledger: &mut Ledger, client: &Text, stream: &Text) -> Result<Step, PrepareFault>
    ensures keeps { ledger.new.books ≡ ledger.old.books }
    ensures answers { Answers PrepareFault.Memory (result_map reply_in result) (outcome (table.reading (sum_in ledger.old.books).parts client.now stream.now)) }
    ensures room { IfOk result (λ step. IfSome step.change (HasRoom (sum_in ledger.new.books) ledger.new.room)) }
{
    let turn = conf_turn(ledger.alloc(), ledger.client_account(client, stream))?;
    finish(ledger, turn)
}
