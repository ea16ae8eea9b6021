//! What a fact needs to be taken in, made ready.

ghost use Rattle.std.specs.Prelude.{◌≡◌, ◌<◌, ◌≤◌, IfOk, IfSome, OnOk, Some, ℕ, length, map, nat_eq};
ghost use Rattle.indexmap.specs.IndexSet.{contains};
ghost use Rattle.sig_history.specs.Owed.{names_number};

use crate::ledger::Ledger;
use crate::prepared::{Prepared, Spare};
use crate::step::Step;
use indexmap::IndexSet;
use sig_accounts::{
    Addressed, KeptRefusal, KeptToken, PublishId, SharedName, addressed_to, client_in, issued_on,
    reserve_subjects, reserve_tokens, tokens_issued,
};
use sig_json::{Items, Memory, Text, copy_optional};
use sig_terms::{Answer, Fact, Issued, SettledItem};
use std::alloc::Global;
use std::collections::VecDeque;

impl Ledger {
    ghost use Rattle.sig_history.specs.Facts.{made_by};
    ghost use Rattle.sig_history.specs.Streams.{issued_of};
    ghost use Rattle.sig_ledger.specs.Books.{sum_in};
    ghost use Rattle.sig_ledger.specs.Room.{AreReported, HasOwnSpace, HasRoom, HaveRoom, IsAddressedIn, IsSpare};
    ghost use Rattle.sig_terms.specs.declared.fact.Fact.TheVariants.{Settled};
    ghost use Rattle.sig_history.specs.Facts.{is_told};
    ghost use Rattle.sig_ledger.specs.Steps.{reply_in};

    /// A fact, with the streams that it tells something. Each stream is asked once; where it is a publication about a simple
    /// subject, only those whose default subjects are all and those that list the subject are asked.
    pub fn address(&self, fact: Fact) -> Result<Addressed, Memory>
        ensures fact { IfOk result (λ a. a.fact ≡ fact) }
        ensures told { IfOk result (IsAddressedIn (sum_in self.now.books).parts) }
    {
        addressed_to(self.alloc, self.accounts.as_slice(), &self.listeners, fact)
    }

    /// The tokens that a fact makes, by stream and number, each with a text of its own.
    pub fn issued_of(&self, addressed: &Addressed) -> Result<Items<Issued>, Memory>
        requires { IsAddressedIn (sum_in self.now.books).parts addressed.now }
        ensures { IfOk result (λ items. items ≡ map issued_of (made_by (sum_in self.now.books).parts addressed.now.fact)) }
    {
        let kept = self.kept_of(addressed)?;
        tokens_issued(self.alloc, &kept)
    }

    // The tokens that a fact makes, as they are kept of a publication.
    fn kept_of(&self, addressed: &Addressed) -> Result<Items<KeptToken>, Memory>
        requires { IsAddressedIn (sum_in self.now.books).parts addressed.now }
        ensures { IfOk result (λ items. items ≡ map issued_of (made_by (sum_in self.now.books).parts addressed.now.fact)) }
    {
        issued_on(self.alloc, self.accounts.as_slice(), addressed)
    }

    /// A fact with what is kept beside it, and room for it.
    pub fn ready(&mut self, addressed: Addressed) -> Result<Prepared, Memory>
        requires { IsAddressedIn (sum_in self.old.books).parts addressed }
        ensures keeps { self.new.books ≡ self.old.books }
        ensures fact { IfOk result (λ p. p.fact ≡ addressed.fact) }
        ensures room { IfOk result (HasRoom (sum_in self.new.books) self.new.room) }
    {
        match self.room_for(&addressed) {
            Ok(spare) => Ok(Prepared::of(addressed, spare)),
            Err(Memory) => {
                drop(addressed);
                Err(Memory)
            }
        }
    }

    // Room for a fact, and what is kept beside it but for the streams that it tells.
    fn room_for(&mut self, addressed: &Addressed) -> Result<Spare, Memory>
        requires { IsAddressedIn (sum_in self.old.books).parts addressed.now }
        ensures keeps { self.new.books ≡ self.old.books }
        ensures spare { IfOk result (IsSpare (sum_in self.new.books) addressed.now.fact) }
        ensures tokens { OnOk result (HaveRoom (is_told addressed.now.fact) (sum_in self.new.books).parts.streams self.new.room.tokens) }
        ensures space { OnOk result (HasOwnSpace (sum_in self.new.books).parts self.new.room addressed.now.fact) }
        ensures refused { IfOk result (λ s. length s.reported ≤ self.new.room.refused) }
    {
        let spare = self.spare_for(addressed)?;
        self.reserve_refused(spare.reported_count())?;
        self.reserve_tokens(addressed)?;
        self.reserve_own(addressed.fact())?;
        Ok(spare)
    }

    /// A step of this answer and this fact, if any, with room for it.
    pub fn step(&mut self, answer: Answer, fact: Option<Fact>) -> Result<Step, Memory>
        ensures keeps { self.new.books ≡ self.old.books }
        ensures reply { IfOk result (λ s. reply_in s ≡ record { answer = answer; change = fact }) }
        ensures room { IfOk result (λ s. IfSome s.change (HasRoom (sum_in self.new.books) self.new.room)) }
    {
        match fact {
            None => Ok(Step::only(answer)),
            Some(fact) => {
                let addressed = self.address(fact)?;
                self.step_with(answer, addressed)
            }
        }
    }

    /// A step of this answer and this fact, with room for it.
    pub fn step_with(&mut self, answer: Answer, addressed: Addressed) -> Result<Step, Memory>
        requires { IsAddressedIn (sum_in self.old.books).parts addressed }
        ensures keeps { self.new.books ≡ self.old.books }
        ensures reply { IfOk result (λ s. reply_in s ≡ record { answer = answer; change = Some addressed.fact }) }
        ensures room { IfOk result (λ s. IfSome s.change (HasRoom (sum_in self.new.books) self.new.room)) }
    {
        let change = self.ready(addressed)?;
        Ok(Step {
            answer,
            change: Some(change),
        })
    }

    // What is kept of a fact beside itself.
    fn spare_for(&self, addressed: &Addressed) -> Result<Spare, Memory>
        requires { IsAddressedIn (sum_in self.now.books).parts addressed.now }
        ensures { IfOk result (IsSpare (sum_in self.now.books) addressed.now.fact) }
    {
        let alloc = self.alloc;
        match addressed.fact() {
            Fact::Created { conf, .. } => {
                let client = Text::of(alloc, client_in(conf.stream.as_str()))?;
                let name = SharedName::of(alloc, conf.stream.copy(alloc)?)?;
                Ok(Spare::for_stream(alloc, client, name))
            }
            Fact::StatusSet { reason, .. } => {
                let reason = copy_optional(alloc, reason)?;
                Ok(Spare::for_reason(alloc, reason))
            }
            Fact::Published { id, .. } => {
                let id = PublishId::of(alloc, id.as_str())?;
                let issued = self.kept_of(addressed)?;
                Ok(Spare::for_tokens(alloc, id, issued))
            }
            Fact::Settled { stream, items } => {
                let numbers = numbers_of(alloc, items.as_slice())?;
                let reported = self.reported_of(stream, items.as_slice())?;
                Ok(Spare::for_items(alloc, numbers, reported))
            }
            _ => Ok(Spare::none(alloc)),
        }
    }

    // What is kept of tokens that were reported.
    fn reported_of(
        &self,
        stream: &Text,
        items: &[SettledItem],
    ) -> Result<VecDeque<KeptRefusal>, Memory>
        ensures { IfOk result (λ v. AreReported (sum_in self.now.books) (Settled stream.now items.now) v.items) }
    {
        match self.account(stream.as_str()) {
            None => Ok(VecDeque::new(self.alloc)),
            Some(account) => account.reported(self.alloc, items),
        }
    }

    // Room for so many reported tokens more.
    fn reserve_refused(&mut self, count: usize) -> Result<(), Memory>
        ensures books { self.new.books ≡ self.old.books }
        ensures room { OnOk result (count ≤ self.new.room.refused) }
    {
        self.refused.reserve(count)
    }

    // Room for one more token on each stream that a fact tells something.
    fn reserve_tokens(&mut self, addressed: &Addressed) -> Result<(), Memory>
        requires { IsAddressedIn (sum_in self.old.books).parts addressed.now }
        ensures books { self.new.books ≡ self.old.books }
        ensures tokens { OnOk result (HaveRoom (is_told addressed.now.fact) (sum_in self.new.books).parts.streams self.new.room.tokens) }
        ensures refused { self.new.room.refused ≡ self.old.room.refused }
    {
        reserve_tokens(self.accounts.as_mut_slice(), addressed)
    }

    // Room for what a fact brings beside tokens; one that brings such tells nothing that needs more room.
    fn reserve_own(&mut self, fact: &Fact) -> Result<(), Memory>
        ensures books { self.new.books ≡ self.old.books }
        ensures tokens { HaveRoom (is_told fact.now) (sum_in self.old.books).parts.streams self.old.room.tokens
            → HaveRoom (is_told fact.now) (sum_in self.new.books).parts.streams self.new.room.tokens }
        ensures space { OnOk result (HasOwnSpace (sum_in self.new.books).parts self.new.room fact.now) }
        ensures refused { self.new.room.refused ≡ self.old.room.refused }
    {
        match fact {
            Fact::Created { .. } => {
                self.accounts.reserve(1)?;
                self.created.reserve(1)?;
                self.listeners.reserve()?;
            }
            Fact::Listed { stream, subject } => {
                reserve_subjects(self.accounts.as_mut_slice(), stream.as_str())?;
                self.listeners.reserve_subject(subject)?;
            }
            Fact::Published { .. } => {
                self.published.reserve(1)?;
                self.places.reserve()?;
            }
            _ => {}
        }
        Ok(())
    }
}

// The numbers that items name, for one look-up a token.
fn numbers_of(alloc: Global, items: &[SettledItem]) -> Result<IndexSet<u64>, Memory>
    ensures { IfOk result (λ s. (n : ℕ) → contains nat_eq s n ≡ names_number n items.now) }
{
    let mut numbers = IndexSet::new(alloc);
    for item in items {
        let _ = numbers.insert(item.number)?;
    }
    Ok(numbers)
}
