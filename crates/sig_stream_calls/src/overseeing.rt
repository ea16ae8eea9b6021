//! How the operator reads how the streams of all clients stand, and deletes one of them.

ghost use Rattle.std.specs.Prelude.{◌≡◌, ◌+◌, IfOk, IfSome, drop, length, map, min, take};
ghost use Rattle.sig_json.specs.Answers.{Answers, result_map};
ghost use Rattle.sig_calls.specs.Overseeing as table;
ghost use Rattle.sig_calls.specs.Told.{outcome};
ghost use Rattle.sig_calls.specs.declared.limits.TheConstants.{STREAMS_PER_PAGE};
ghost use Rattle.sig_accounts.specs.Owings.{owing_in};
ghost use Rattle.sig_ledger.specs.Books.{sum_in};
ghost use Rattle.sig_ledger.specs.Room.{HasRoom};
ghost use Rattle.sig_ledger.specs.Steps.{reply_in};
ghost use Rattle.sig_stream_calls.specs.Standings.{standing_in};

use crate::configuring::delete_turn;
use crate::turn::{Turn, finish};
use sig_calls::limits::STREAMS_PER_PAGE;
use sig_json::{Items, Memory, Text};
use sig_ledger::{Account, Ledger, Publication, Step};
use sig_terms::{Answer, PrepareFault, Standing};
use std::alloc::Global;

// How a stream stands.
fn standing_of(alloc: Global, account: &Account) -> Result<Standing, Memory>
    ensures { IfOk result (λ s. s ≡ standing_in account.now.owing) }
{
    Ok(Standing {
        stream: account.conf().stream.copy(alloc)?,
        status: account.status(),
        owed: account.owed_count(),
        oldest: account.owed_since(),
        made: account.made(),
    })
}

// How each of some streams stands.
fn standings_of(alloc: Global, accounts: &[Account]) -> Result<Items<Standing>, Memory>
    ensures { IfOk result (λ items. items ≡ map standing_in (map owing_in accounts.now)) }
{
    let mut standings = Vec::new(alloc);
    for account in accounts {
        standings.push(standing_of(alloc, account)?)?;
    }
    Ok(Items::of(standings))
}

// The streams from a place on, at most so many.
fn page_of(accounts: &[Account], from: u64, most: u64) -> &[Account]
    ensures { result.now ≡ take most (drop from accounts.now) }
{
    let start = accounts.len().min(from as usize);
    let rest = &accounts[start..];
    let end = rest.len().min(most as usize);
    &rest[..end]
}

// The place behind a page.
fn place_behind(accounts: &[Account], from: u64) -> u64
    ensures { result ≡ min (from + STREAMS_PER_PAGE) (length accounts.now) }
{
    let behind = from.saturating_add(STREAMS_PER_PAGE as u64);
    behind.min(accounts.len() as u64)
}

// How many publications there are.
fn count_of(publications: &[Publication]) -> u64
    ensures { result ≡ length publications.now }
{
    publications.len() as u64
}

/// How the operator reads a page of how the streams of all clients stand, from a place on, counted from 0. A place past the end
/// gives no streams.
pub fn streams(ledger: &mut Ledger, from: u64) -> Result<Step, PrepareFault>
    ensures keeps { ledger.new.books ≡ ledger.old.books }
    ensures answers { Answers PrepareFault.Memory (result_map reply_in result) (outcome (table.listing (sum_in ledger.old.books) from)) }
    ensures room { IfOk result (λ step. IfSome step.change (HasRoom (sum_in ledger.new.books) ledger.new.room)) }
{
    let accounts = ledger.accounts();
    let next = place_behind(accounts, from);
    let page = page_of(accounts, from, STREAMS_PER_PAGE as u64);
    let standings = standings_of(ledger.alloc(), page)?;
    finish(ledger, Turn::only(Answer::Standings { next, standings }))
}

/// How the operator reads the figures of the transmitter: how many publications stand, and how each stream does.
pub fn figures(ledger: &mut Ledger) -> Result<Step, PrepareFault>
    ensures keeps { ledger.new.books ≡ ledger.old.books }
    ensures answers { Answers PrepareFault.Memory (result_map reply_in result) (outcome (table.figuring (sum_in ledger.old.books))) }
    ensures room { IfOk result (λ step. IfSome step.change (HasRoom (sum_in ledger.new.books) ledger.new.room)) }
{
    let publications = count_of(ledger.published());
    let standings = standings_of(ledger.alloc(), ledger.accounts())?;
    finish(
        ledger,
        Turn::only(Answer::Figures {
            publications,
            standings,
        }),
    )
}

/// How the operator deletes a stream, whether its client is configured or not.
pub fn operator_delete(ledger: &mut Ledger, stream: &Text) -> Result<Step, PrepareFault>
    ensures keeps { ledger.new.books ≡ ledger.old.books }
    ensures answers { Answers PrepareFault.Memory (result_map reply_in result) (outcome (table.dropping (sum_in ledger.old.books).parts stream.now)) }
    ensures room { IfOk result (λ step. IfSome step.change (HasRoom (sum_in ledger.new.books) ledger.new.room)) }
{
    let turn = delete_turn(ledger.alloc(), ledger.account(stream.as_str()), stream)?;
    finish(ledger, turn)
}
