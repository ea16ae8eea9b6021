//! Which facts may follow.

ghost use Rattle.std.specs.Prelude.{◌≡◌, ◌&&◌, ◌==◌, IfOk};
ghost use Rattle.std.specs.List.{list_all, list_any};
ghost use Rattle.sig_history.specs.Owed.{owed_by};
ghost use Rattle.sig_history.specs.Sound as sound;
ghost use Rattle.sig_history.specs.Sound.{are_owed, each_once};
ghost use Rattle.sig_history.specs.Streams as streams;
ghost use Rattle.sig_accounts.specs.declared.debt.Debt.{Debt};
ghost use Rattle.sig_terms.specs.declared.fact.SettledItem.{SettledItem};

use crate::ledger::Ledger;
use crate::sizes::{is_client_name, is_small};
use indexmap::IndexSet;
use sig_accounts::{Account, client_in, stream_name};
use sig_json::limits::{LAST_NUMBER, STREAMS_PER_CLIENT};
use sig_json::{Memory, Text};
use sig_terms::{Fact, SettledItem};
use std::alloc::Global;

impl Ledger {
    ghost use Rattle.sig_ledger.specs.Books.{sum_in};

    /// Whether a fact may follow: the streams and tokens that it names are there, and what it brings may be brought.
    ///
    /// The tokens that it would make aren't looked at. It takes time in proportion to the fact.
    pub fn is_apt(&self, fact: &Fact) -> Result<bool, Memory>
        ensures { IfOk result (λ b. b ≡ sound.is_apt (sum_in self.now.books) fact.now) }
    {
        match fact {
            Fact::Created { conf, .. } => {
                let is_next = self.is_next(&conf.stream)?;
                Ok(is_next && is_small(&conf.requested, &conf.delivery, &conf.description))
            }
            Fact::Configured {
                stream,
                requested,
                delivery,
                description,
            } => Ok(self.stands(stream) && is_small(requested, delivery, description)),
            Fact::Settled { stream, items } => self.may_settle(stream, items.as_slice()),
            Fact::StatusSet { stream, .. }
            | Fact::Listed { stream, .. }
            | Fact::Unlisted { stream, .. }
            | Fact::Deleted { stream }
            | Fact::Asked { stream, .. } => Ok(self.stands(stream)),
            Fact::Published { .. } => Ok(true),
        }
    }

    // Whether the stream of a name stands.
    fn stands(&self, stream: &Text) -> bool
        ensures { result ≡ streams.stands stream.now (sum_in self.now.books).parts.streams }
    {
        self.account(stream.as_str()).is_some()
    }

    // Whether a name is that of its client's next stream, which may be made.
    fn is_next(&self, stream: &Text) -> Result<bool, Memory>
        ensures { IfOk result (λ b. b ≡ sound.is_next (sum_in self.now.books).parts (streams.client_in stream.now) stream.now) }
    {
        let client = Text::of(self.alloc, client_in(stream.as_str()))?;
        let created = self.created_by(&client);
        if LAST_NUMBER <= created {
            return Ok(false);
        }
        let name = stream_name(self.alloc, client.as_str(), created + 1)?;
        let is_named = is_client_name(client.as_str()) && stream == &name;
        Ok(is_named && self.streams_of(&client) < STREAMS_PER_CLIENT)
    }

    // Whether items may be settled: the stream stands and owes each, and each is named once.
    fn may_settle(&self, stream: &Text, items: &[SettledItem]) -> Result<bool, Memory>
        ensures { IfOk result (λ b. b ≡ (streams.stands stream.now (sum_in self.now.books).parts.streams
            && are_owed items.now (owed_by (sum_in self.now.books) stream.now) && each_once items.now)) }
    {
        match self.account(stream.as_str()) {
            None => Ok(false),
            Some(account) => {
                let once = are_distinct(self.alloc, items)?;
                let owed = owes_each(account, items);
                Ok(owed && once)
            }
        }
    }
}

// Whether items name each number once.
fn are_distinct(alloc: Global, items: &[SettledItem]) -> Result<bool, Memory>
    ensures { IfOk result (λ b. b ≡ each_once items.now) }
{
    let mut numbers = IndexSet::new(alloc);
    for item in items {
        if !numbers.insert(item.number)? {
            return Ok(false);
        }
    }
    Ok(true)
}

// Whether a stream owes the token of each.
fn owes_each(account: &Account, items: &[SettledItem]) -> bool
    ensures { result ≡ list_all (λ (i : SettledItem). list_any (λ (d : Debt). d.number == i.number) account.now.owing.owed) items.now }
{
    items.iter().all(|item| account.owes(item.number))
}
