//! What a transmitter holds.

ghost use Rattle.std.specs.Prelude.{◌≡◌, ◌↔◌, IfOk, length, map, option_map, true};

mod committing;
mod fitting;
mod readying;

use sig_accounts::{
    Account, Counted, Listeners, Places, Publication, Refusals, account_named, client_account,
    copy_accounts, copy_list, created_by, name_at, publication_at, same_accounts, streams_of,
};
use sig_json::{Memory, Text, same_slices};
use std::alloc::Global;
use std::marker::Model;

/// A transmitter's streams, what each owes, and all that was published. It keeps its allocator.
///
/// Contracts see its books and its room.
pub struct Ledger {
    alloc: Global,
    store_id: [u8; 16],
    accounts: Vec<Account>,
    created: Vec<Counted>,
    published: Vec<Publication>,
    // Where the first publication of each id stands.
    places: Places,
    refused: Refusals,
    // Which streams list a subject.
    listeners: Listeners,
}

impl Drop for Ledger {
    fn drop(self) {
        let Ledger {
            alloc: _,
            store_id: _,
            accounts,
            created,
            published,
            places,
            refused,
            listeners,
        } = self;
        drop(accounts);
        drop(created);
        drop(published);
        drop(places);
        drop(refused);
        drop(listeners);
    }
}

impl Model for Ledger {
    ghost use Rattle.std.specs.Prelude.{◌-◌, map, vec_len, vec_capacity};
    ghost use Rattle.sig_accounts.specs.Owings.{list_of, owing_in, room_in, subjects_in};
    ghost use Rattle.sig_ledger.specs.Books.{AreKept};
    ghost use Rattle.sig_accounts.specs.Listening.{IsListening};
    ghost use Rattle.sig_accounts.specs.Places.{IsIndex};
    ghost use Rattle.sig_ledger.specs.Room.{Held};

    ghost Value = { Held };

    ghost view = { λ l. record {
      books = record {
        store_id = l.store_id;
        owings = map owing_in l.accounts.items;
        created = l.created.items;
        published = l.published.items;
        refused = l.refused.reported;
      };
      room = record {
        streams = vec_capacity l.accounts - vec_len l.accounts;
        created = vec_capacity l.created - vec_len l.created;
        published = vec_capacity l.published - vec_len l.published;
        ids = l.places.room;
        tokens = map room_in l.accounts.items;
        subjects = map subjects_in l.accounts.items;
        refused = l.refused.room;
        listeners = l.listeners;
      };
    } };

    ghost invariant = { λ l. AreKept (record {
      store_id = l.store_id;
      owings = map owing_in l.accounts.items;
      created = l.created.items;
      published = l.published.items;
      refused = l.refused.reported;
    }) × IsIndex l.places.index l.published.items
        × IsListening l.listeners (map list_of (map owing_in l.accounts.items)) };
}

impl Ledger {
    ghost use Rattle.std.specs.List.{slice_get};
    ghost use Rattle.sig_history.specs.Owed.{empty_sum, owed_count};
    ghost use Rattle.sig_history.specs.Streams as streams;
    ghost use Rattle.sig_accounts.specs.Owings.{client_owing, owing_in, owing_named};
    ghost use Rattle.sig_accounts.specs.Reported.{refusals_at};
    ghost use Rattle.sig_ledger.specs.Books.{AreKept, sum_in};

    /// A new store's: no stream stands. It takes no memory.
    pub fn new(alloc: Global, store_id: [u8; 16]) -> Ledger
        ensures { sum_in result.books ≡ empty_sum store_id }
    {
        Ledger {
            alloc,
            store_id,
            accounts: Vec::new(alloc),
            created: Vec::new(alloc),
            published: Vec::new(alloc),
            places: Places::new(alloc),
            refused: Refusals::new(alloc),
            listeners: Listeners::new(alloc),
        }
    }

    /// An equal ledger, with room of its own.
    pub fn copy(&self) -> Result<Ledger, Memory>
        ensures { IfOk result (λ l. l.books ≡ self.now.books) }
    {
        let alloc = self.alloc;
        Ok(Ledger {
            alloc,
            store_id: self.store_id,
            accounts: copy_accounts(alloc, self.accounts.as_slice())?,
            created: copy_list(alloc, self.created.as_slice())?,
            published: copy_list(alloc, self.published.as_slice())?,
            places: self.places.copy(alloc)?,
            refused: self.refused.copy(alloc)?,
            listeners: self.listeners.copy()?,
        })
    }

    /// Whether two ledgers come to the same. It takes no memory.
    pub fn same(&self, other: &Ledger) -> bool
        ensures { (result ≡ true) ↔ (sum_in self.now.books ≡ sum_in other.now.books) }
    {
        let everything = self.published();
        let some = self.accounts();
        let others = other.accounts();
        self.has_same_records(other) && same_accounts(everything, some, others)
    }

    // Whether both are of one store, with the same counts, publications and reported tokens.
    fn has_same_records(&self, other: &Ledger) -> bool
        ensures { (result ≡ true) ↔ ((self.now.books.store_id ≡ other.now.books.store_id)
            × (self.now.books.created ≡ other.now.books.created) × (self.now.books.published ≡ other.now.books.published)
            × (refusals_at self.now.books.published self.now.books.refused ≡ refusals_at self.now.books.published other.now.books.refused)) }
    {
        self.store_id == other.store_id
            && same_slices(self.created.as_slice(), other.created.as_slice())
            && same_slices(self.published.as_slice(), other.published.as_slice())
            && self.refused.same(self.published.as_slice(), &other.refused)
    }

    /// Says nothing at run time. Its contract: the books are kept, which rests on each change of them.
    pub fn books_are_kept(&self)
        ensures { AreKept self.now.books }
    {
        let _ = &self.store_id;
    }

    /// Where it gets memory.
    pub fn alloc(&self) -> Global {
        self.alloc
    }

    /// Its store.
    pub fn store_id(&self) -> [u8; 16]
        ensures { result ≡ self.now.books.store_id }
    {
        self.store_id
    }

    /// Its streams, in order of client name and number. The books are whole.
    pub fn accounts(&self) -> &[Account]
        ensures accounts { map owing_in result.now ≡ self.now.books.owings }
        ensures kept { AreKept self.now.books }
    {
        self.accounts.as_slice()
    }

    /// The stream of a name.
    pub fn account(&self, name: &str) -> Option<&Account>
        ensures found { option_map (λ a. a.now.owing) result ≡ owing_named name.now self.now.books.owings }
        ensures kept { AreKept self.now.books }
    {
        account_named(self.accounts.as_slice(), name)
    }

    /// The client's stream of a name.
    pub fn client_account(&self, client: &Text, stream: &Text) -> Option<&Account>
        ensures found { option_map (λ a. a.now.owing) result ≡ client_owing client.now stream.now self.now.books.owings }
        ensures kept { AreKept self.now.books }
    {
        client_account(self.accounts.as_slice(), client.as_str(), stream.as_str())
    }

    /// All that was published, in order.
    pub fn published(&self) -> &[Publication]
        ensures { result.now ≡ self.now.books.published }
    {
        self.published.as_slice()
    }

    /// The first publication of a name.
    pub fn publication(&self, id: &Text) -> Option<&Publication>
        ensures { option_map (λ p. p.now) result ≡ streams.publication_of id.now self.now.books.published }
    {
        let published = self.published.as_slice();
        match self.places.place_of(published, id.as_str()) {
            None => None,
            Some(place) => publication_at(published, place),
        }
    }

    /// The tokens that were reported as faulty, as they are held.
    pub fn refused(&self) -> &Refusals
        ensures refused { result.now.reported ≡ self.now.books.refused }
        ensures kept { AreKept self.now.books }
    {
        &self.refused
    }

    /// How many streams a client ever made.
    pub fn created_by(&self, client: &Text) -> u64
        ensures { result ≡ streams.created_by client.now self.now.books.created }
    {
        created_by(self.created.as_slice(), client)
    }

    /// How many streams of a client stand.
    pub fn streams_of(&self, client: &Text) -> usize
        ensures { result ≡ streams.streams_of client.now (sum_in self.now.books).parts.streams }
    {
        streams_of(self.accounts.as_slice(), client)
    }

    /// How many tokens the stream of a name owes; none exactly where it doesn't stand.
    pub fn owed(&self, stream: &str) -> Option<u64>
        ensures { result ≡ owed_count (sum_in self.now.books) stream.now }
    {
        match account_named(self.accounts.as_slice(), stream) {
            None => None,
            Some(account) => Some(account.owed().len() as u64),
        }
    }

    /// How many streams stand.
    pub fn streams(&self) -> usize
        ensures { result ≡ length (sum_in self.now.books).parts.streams }
    {
        self.accounts.len()
    }

    /// The name of the stream at a place, in order of client name and number; none exactly where there are not so many.
    pub fn stream_at(&self, place: usize) -> Option<&Text>
        ensures { option_map (λ name. name.now) result ≡ slice_get (map (λ (s : streams.Stream). s.conf.stream) (sum_in self.now.books).parts.streams) place }
    {
        name_at(self.accounts.as_slice(), place)
    }
}
