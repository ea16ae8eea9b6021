//! What a fact leaves of a ledger. None of it takes memory.

ghost use Rattle.std.specs.Prelude.{◌≡◌, ◌<◌, ◌≤◌, ℕ, Bool, List, [], ◌∷◌, is_some, length, true};
ghost use Rattle.sig_history.specs.Streams.{is_named};
ghost use Rattle.sig_accounts.specs.Owings.{notice_for};

use crate::ledger::Ledger;
use crate::prepared::{Prepared, Spare};
use indexmap::IndexSet;
use sig_accounts::{
    Account, KeptRefusal, Notice, Publication, Said, count_one, created_by, hear_all, place_named,
    put_account,
};
use sig_event::{News, Status};
use sig_json::{Items, Text};
use sig_subject::Subject;
use sig_terms::{Delivery, Fact, StreamConf};
use std::collections::VecDeque;

// The token that tells the receiver of a status that the operator set, with the reason that is kept beside the fact.
fn notice_of(status: Status, spare: Spare, operator: bool, time: u64) -> Option<Notice>
    ensures { result ≡ notice_for status spare.reason operator time }
{
    if !operator {
        return None;
    }
    let reason = spare.into_reason();
    let said = Said::Updated { status, reason };
    Some(Notice { time, said })
}

impl Ledger {
    ghost use Rattle.sig_history.specs.Owed.{sum_of};
    ghost use Rattle.sig_history.specs.Sound.{Fits};
    ghost use Rattle.sig_ledger.specs.Books.{sum_in};
    ghost use Rattle.sig_accounts.specs.Listening.{room_for};
    ghost use Rattle.sig_accounts.specs.Owings.{AreNumbers};
    ghost use Rattle.sig_ledger.specs.Room.{AreReported, HasRoom, HaveRoom};
    ghost use Rattle.sig_terms.specs.declared.fact.Fact.TheVariants.{Asked, Configured, Created, Deleted, Listed, Published, Settled, StatusSet, Unlisted};
    ghost use Rattle.sig_terms.specs.declared.fact.SettledItem.{SettledItem};

    /// Takes in a fact that fits, and for which there is room. It takes no memory.
    pub fn commit(&mut self, prepared: Prepared)
        requires fits { Fits (sum_in self.old.books) prepared.fact }
        requires room { HasRoom (sum_in self.old.books) self.old.room prepared }
        ensures { sum_in self.new.books ≡ sum_of (sum_in self.old.books) (prepared.fact ∷ []) }
    {
        let (fact, spare) = prepared.into_parts();
        match fact {
            Fact::Created { conf, time: _ } => self.take_stream(conf, spare),
            Fact::Configured {
                stream,
                requested,
                delivery,
                description,
            } => {
                drop(spare);
                self.configure(&stream, requested, delivery, description);
            }
            Fact::StatusSet {
                stream,
                status,
                reason,
                operator,
                time,
            } => {
                let notice = notice_of(status, spare, operator, time);
                self.set_status(&stream, status, reason, notice);
            }
            Fact::Listed { stream, subject } => {
                drop(spare);
                self.list(&stream, subject);
            }
            Fact::Unlisted { stream, subject } => {
                drop(spare);
                self.unlist(&stream, &subject);
            }
            Fact::Deleted { stream } => {
                drop(spare);
                self.delete(&stream);
            }
            Fact::Published { id, news, time } => self.publish(&id, news, time, spare),
            Fact::Settled { stream, items } => {
                let (numbers, reported) = spare.into_items();
                self.settle(&stream, &numbers, reported);
                drop(items);
            }
            Fact::Asked {
                stream,
                state,
                time,
            } => {
                drop(spare);
                self.verify(&stream, state, time);
            }
        }
    }

    // A stream was made.
    fn take_stream(&mut self, conf: StreamConf, spare: Spare)
        requires fits { (time : ℕ) → Fits (sum_in self.old.books) (Created conf time) }
        requires room { (time : ℕ) → HasRoom (sum_in self.old.books) self.old.room (record { fact = Created conf time; spare = spare }) }
        ensures { (time : ℕ) → sum_in self.new.books ≡ sum_of (sum_in self.old.books) (Created conf time ∷ []) }
    {
        let (client, name) = spare.into_names();
        let number = created_by(self.created.as_slice(), &client) + 1;
        let account = Account::open(self.alloc, number, conf, name);
        let place = put_account(&mut self.accounts, account);
        self.listeners.open(place);
        count_one(&mut self.created, client);
    }

    // A stream was configured anew.
    fn configure(
        &mut self,
        stream: &Text,
        requested: Option<Items<Text>>,
        delivery: Delivery,
        description: Option<Text>,
    )
        requires { Fits (sum_in self.old.books) (Configured stream.now requested delivery description) }
        ensures { sum_in self.new.books ≡ sum_of (sum_in self.old.books) (Configured stream.now requested delivery description ∷ []) }
    {
        let place = place_named(self.accounts.as_slice(), stream.as_str());
        self.accounts[place].configure(requested, delivery, description);
    }

    // The status of a stream was set, by the operator where there is a notice.
    fn set_status(
        &mut self,
        stream: &Text,
        status: Status,
        reason: Option<Text>,
        notice: Option<Notice>,
    )
        requires fits { (operator : Bool) × (time : ℕ) × (notice ≡ notice_for status reason operator time)
            × Fits (sum_in self.old.books) (StatusSet stream.now status reason operator time) }
        requires room { is_some notice ≡ true → HaveRoom (is_named stream.now) (sum_in self.old.books).parts.streams self.old.room.tokens }
        ensures { (operator : Bool) (time : ℕ) → notice ≡ notice_for status reason operator time
            → Fits (sum_in self.old.books) (StatusSet stream.now status reason operator time)
            → sum_in self.new.books ≡ sum_of (sum_in self.old.books) (StatusSet stream.now status reason operator time ∷ []) }
    {
        let place = place_named(self.accounts.as_slice(), stream.as_str());
        self.accounts[place].note_status(status, reason, notice);
    }

    // A subject was put on a stream's list.
    fn list(&mut self, stream: &Text, subject: Subject)
        requires fits { Fits (sum_in self.old.books) (Listed stream.now subject) }
        requires room { HaveRoom (is_named stream.now) (sum_in self.old.books).parts.streams self.old.room.subjects }
        requires seat { 0 < room_for subject self.old.room.listeners.lists }
        ensures { sum_in self.new.books ≡ sum_of (sum_in self.old.books) (Listed stream.now subject ∷ []) }
    {
        let place = place_named(self.accounts.as_slice(), stream.as_str());
        self.listeners.enter(place, &subject);
        self.accounts[place].list(subject);
    }

    // A subject was taken off a stream's list.
    fn unlist(&mut self, stream: &Text, subject: &Subject)
        requires { Fits (sum_in self.old.books) (Unlisted stream.now subject.now) }
        ensures { sum_in self.new.books ≡ sum_of (sum_in self.old.books) (Unlisted stream.now subject.now ∷ []) }
    {
        let place = place_named(self.accounts.as_slice(), stream.as_str());
        self.listeners.leave(place, subject);
        self.accounts[place].unlist(subject);
    }

    // A stream was deleted.
    fn delete(&mut self, stream: &Text)
        requires { Fits (sum_in self.old.books) (Deleted stream.now) }
        ensures { sum_in self.new.books ≡ sum_of (sum_in self.old.books) (Deleted stream.now ∷ []) }
    {
        let place = place_named(self.accounts.as_slice(), stream.as_str());
        let account = self.accounts.remove(place);
        self.listeners.close(place, account.listed());
    }

    // News were published.
    fn publish(&mut self, id: &Text, news: News, time: u64, spare: Spare)
        requires fits { Fits (sum_in self.old.books) (Published id.now news time) }
        requires room { HasRoom (sum_in self.old.books) self.old.room (record { fact = Published id.now news time; spare = spare }) }
        ensures { sum_in self.new.books ≡ sum_of (sum_in self.old.books) (Published id.now news time ∷ []) }
    {
        let (kept, issued, told) = spare.into_tokens();
        let place = self.published.len();
        hear_all(self.accounts.as_mut_slice(), &told, time, place);
        self.places.enter(self.published.as_slice(), id.as_str());
        // There is room, so the push keeps the publication.
        let _ = self.published.push(Publication::of(kept, news, issued));
    }

    // Tokens of a stream were settled, those of these numbers, of which these were reported.
    fn settle(&mut self, stream: &Text, numbers: &IndexSet<u64>, reported: VecDeque<KeptRefusal>)
        requires fits { (items : List SettledItem) × AreNumbers numbers.now.keys items × Fits (sum_in self.old.books) (Settled stream.now items)
            × AreReported (sum_in self.old.books) (Settled stream.now items) reported.items }
        requires room { length reported.items ≤ self.old.room.refused }
        ensures { (items : List SettledItem) → AreNumbers numbers.now.keys items → Fits (sum_in self.old.books) (Settled stream.now items)
            → AreReported (sum_in self.old.books) (Settled stream.now items) reported.items
            → sum_in self.new.books ≡ sum_of (sum_in self.old.books) (Settled stream.now items ∷ []) }
    {
        let place = place_named(self.accounts.as_slice(), stream.as_str());
        self.accounts[place].settle(numbers);
        self.refused.take_in(reported);
    }

    // A verification of a stream was asked for.
    fn verify(&mut self, stream: &Text, state: Option<Text>, time: u64)
        requires fits { Fits (sum_in self.old.books) (Asked stream.now state time) }
        requires room { HaveRoom (is_named stream.now) (sum_in self.old.books).parts.streams self.old.room.tokens }
        ensures { sum_in self.new.books ≡ sum_of (sum_in self.old.books) (Asked stream.now state time ∷ []) }
    {
        let place = place_named(self.accounts.as_slice(), stream.as_str());
        self.accounts[place].verify(state, time);
    }
}
