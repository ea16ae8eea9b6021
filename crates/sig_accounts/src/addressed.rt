ghost use Rattle.std.specs.Prelude.{◌≡◌, IfOk, false, map, slice_index_or};
ghost use Rattle.sig_history.specs.Facts.{is_told};
ghost use Rattle.sig_accounts.specs.Listening.{IsListening, is_simple};
ghost use Rattle.sig_accounts.specs.Owings.{list_of, owing_in, stream_in};
ghost use Rattle.sig_accounts.specs.Telling.{IsAddressed};

use crate::account::Account;
use crate::listeners::Listeners;
use crate::told_streams::{ToldStreams, told_by, told_by_news};
use sig_json::Memory;
use sig_subject::Subject;
use sig_terms::Fact;
use std::alloc::Global;
use std::marker::Model;

/// A fact, with the streams that it tells something: they are found once, and are at hand until the fact is taken in.
#[derive(Drop)]
pub struct Addressed {
    fact: Fact,
    told: ToldStreams,
}

impl Model for Addressed {
    ghost use Rattle.sig_accounts.specs.Telling as telling;

    ghost Value = { telling.Addressed };

    ghost view = { λ a. record { fact = a.fact; told = a.told } };
}

impl Addressed {
    /// The fact.
    pub fn fact(&self) -> &Fact
        ensures { result.now ≡ self.now.fact }
    {
        &self.fact
    }

    /// Whether it tells the stream at a place something.
    pub fn tells(&self, place: usize) -> bool
        ensures { result ≡ slice_index_or self.now.told place false }
    {
        self.told.has(place)
    }

    /// The fact, and the streams that it tells.
    pub fn into_parts(self) -> (Fact, ToldStreams)
        ensures fact { result.0 ≡ self.fact }
        ensures told { result.1 ≡ self.told }
    {
        (self.fact, self.told)
    }
}

// Which of these streams a fact tells something. Where it is a publication about a simple subject, only those that may hear of
// that are asked.
fn told_among(
    alloc: Global,
    accounts: &[Account],
    listeners: &Listeners,
    fact: &Fact,
) -> Result<ToldStreams, Memory>
    requires { IsListening listeners.now (map list_of (map owing_in accounts.now)) }
    ensures { IfOk result (λ told. told ≡ map (is_told fact.now) (map stream_in (map owing_in accounts.now))) }
{
    match fact {
        Fact::Published { news, .. } if is_simple(&news.subject) => {
            told_by_news(alloc, accounts, listeners, news)
        }
        _ => told_by(alloc, accounts, fact),
    }
}

fn is_simple(subject: &Subject) -> bool
    ensures { result ≡ is_simple subject.now }
{
    match subject {
        Subject::Simple(_) => true,
        Subject::Complex { .. } => false,
    }
}

/// A fact, with those of these streams that it tells.
pub fn addressed_to(
    alloc: Global,
    accounts: &[Account],
    listeners: &Listeners,
    fact: Fact,
) -> Result<Addressed, Memory>
    requires { IsListening listeners.now (map list_of (map owing_in accounts.now)) }
    ensures fact { IfOk result (λ a. a.fact ≡ fact) }
    ensures told { IfOk result (IsAddressed (map stream_in (map owing_in accounts.now))) }
{
    match told_among(alloc, accounts, listeners, &fact) {
        Ok(told) => Ok(Addressed { fact, told }),
        Err(Memory) => {
            // It is dropped by itself, so that this function has no part of its many kinds.
            drop(fact);
            Err(Memory)
        }
    }
}
