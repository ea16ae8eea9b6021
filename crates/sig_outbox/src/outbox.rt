ghost use Rattle.std.specs.Prelude.{◌≡◌, ◌↔◌, ◌-◌, ◌^◌, [], ◌∷◌, IfOk, IsTrue, OnErr, OnOk, length, map, min, option_map, is_some};
ghost use Rattle.sig_json.specs.Answers.{Answers, result_map};

use crate::applying::{ApplyFault, take_in};
use crate::dispatch::dispatch;
use crate::totals::owed_together;
use sig_json::{Memory, Text};
use sig_ledger::{Ledger, Prepared, Step};
use sig_terms::{Call, Fact, PrepareFault, Rules};
use std::alloc::Global;
use std::marker::Model;

/// A transmitter's streams, what each owes, and all that was published. It keeps its allocator.
///
/// Contracts see what the history came to, and for what there is room.
#[derive(Drop)]
pub struct Outbox {
    ledger: Ledger,
}

impl Model for Outbox {
    ghost use Rattle.sig_ledger.specs.Books.{sum_in};
    ghost use Rattle.sig_outbox.specs.State.{State};

    ghost Value = { State };

    ghost view = { λ o. record { sum = sum_in o.ledger.books; room = o.ledger.room } };
}

impl Outbox {
    ghost use Rattle.std.specs.List.{slice_get};
    ghost use Rattle.sig_history.specs.Owed.{empty_sum, owed_count, sum_of};
    ghost use Rattle.sig_history.specs.Sound as sound;
    ghost use Rattle.sig_history.specs.Sound.{Fits};
    ghost use Rattle.sig_history.specs.Streams.{Stream, publication_of};
    ghost use Rattle.sig_calls.specs.Proper.{IsProperCall, IsProperRules};
    ghost use Rattle.sig_calls.specs.Table.{prepared_of};
    ghost use Rattle.sig_ledger.specs.Room.{HasRoom};
    ghost use Rattle.sig_ledger.specs.Steps.{reply_in};
    ghost use Rattle.sig_outbox.specs.State.{IsReady, taken_where};
    ghost use Rattle.sig_outbox.specs.Totals.{owed_in_all};

    /// A new store's: no stream stands. It takes no memory.
    pub fn new(alloc: Global, store_id: [u8; 16]) -> Outbox
        ensures { result.sum ≡ empty_sum store_id }
    {
        Outbox {
            ledger: Ledger::new(alloc, store_id),
        }
    }

    /// How a call is answered at a time, and the fact that it makes. The state stays as it is; room is made for the fact.
    ///
    /// `Number` comes exactly where a stream or a token would get a number above 2^62, and after every refusal of the call.
    pub fn prepare(&mut self, rules: &Rules, call: &Call, now: u64) -> Result<Step, PrepareFault>
        ensures state { self.new.sum ≡ self.old.sum }
        ensures answers { Answers PrepareFault.Memory (result_map reply_in result) (prepared_of rules.now self.old.sum call.now now) }
        ensures ready { IfOk result (λ step. IsProperRules rules.now → IsProperCall call.now → IsReady self.new step.change) }
    {
        // That a call's fact fits rests on books that are kept.
        self.ledger.books_are_kept();
        dispatch(&mut self.ledger, rules, call, now)
    }

    /// Takes in the fact that was prepared last. It takes no memory.
    pub fn commit(&mut self, prepared: Prepared)
        requires fits { Fits self.old.sum prepared.fact }
        requires room { HasRoom self.old.sum self.old.room prepared }
        ensures { self.new.sum ≡ sum_of self.old.sum (prepared.fact ∷ []) }
    {
        self.ledger.commit(prepared);
    }

    /// Takes in a fact that was journalled. After a refusal the state is as before.
    ///
    /// `Bad` comes exactly where the fact doesn't fit what the history came to.
    pub fn apply(&mut self, fact: Fact) -> Result<(), ApplyFault>
        ensures fits { Answers ApplyFault.Memory result (taken_where (sound.is_fitting self.old.sum fact)) }
        ensures takes { OnOk result (self.new.sum ≡ sum_of self.old.sum (fact ∷ [])) }
        ensures stays { OnErr result (self.new.sum ≡ self.old.sum) }
    {
        take_in(&mut self.ledger, fact)
    }

    /// An equal state, with room of its own. Out of memory is its only error.
    pub fn copy(&self) -> Result<Outbox, Memory>
        ensures { IfOk result (λ o. o.sum ≡ self.now.sum) }
    {
        let ledger = self.ledger.copy()?;
        Ok(Outbox { ledger })
    }

    /// Whether both states are equal, whatever room each has. It takes no memory.
    pub fn same(&self, other: &Outbox) -> bool
        ensures { IsTrue result ↔ (self.now.sum ≡ other.now.sum) }
    {
        self.ledger.same(&other.ledger)
    }

    /// How many tokens the stream owes; none exactly where it doesn't stand. It takes no memory.
    pub fn owed(&self, stream: &str) -> Option<u64>
        ensures { result ≡ owed_count self.now.sum stream.now }
    {
        self.ledger.owed(stream)
    }

    /// How many tokens all streams owe together, or 2^64 - 1 where they are more. It takes no memory.
    pub fn owed_in_all(&self) -> u64
        ensures { result ≡ min (owed_in_all self.now.sum) (2 ^ 64 - 1) }
    {
        owed_together(self.ledger.accounts())
    }

    /// How many streams stand.
    pub fn streams(&self) -> usize
        ensures { result ≡ length self.now.sum.parts.streams }
    {
        self.ledger.streams()
    }

    /// The name of the stream at a place, in order of client name and number; none exactly where there are not so many.
    pub fn stream_at(&self, place: usize) -> Option<&Text>
        ensures { option_map (λ name. name.now) result ≡ slice_get (map (λ (s : Stream). s.conf.stream) self.now.sum.parts.streams) place }
    {
        self.ledger.stream_at(place)
    }

    /// Whether a publication of this name was made.
    pub fn has_publication(&self, id: &Text) -> bool
        ensures { result ≡ is_some (publication_of id.now self.now.sum.parts.published) }
    {
        self.ledger.publication(id).is_some()
    }
}
