ghost use Rattle.std.specs.Prelude.{◌≡◌, ◌<◌, ◌≤◌, ◌++◌, ◌∷◌, ◌+◌, [], IfOk, OnOk, nat_eq, unwrap_or};
ghost use Rattle.indexmap.specs.IndexMap.{get};

use crate::PlacesOf;
use crate::entry::{Entry, Link};
use indexmap::IndexMap;
use sig_json::Memory;
use std::alloc::Global;
use std::marker::Model;

/// Places under keys, in the order in which they were put. Contracts see the list of them, and for how many more there is
/// room.
pub struct Places {
    newest: IndexMap<u64, usize>,
    entries: Vec<Entry>,
    links: Vec<Link>,
}

impl Drop for Places {
    fn drop(self) {
        let Places {
            newest,
            entries,
            links,
        } = self;
        drop(newest);
        drop(entries);
        drop(links);
    }
}

impl Model for Places {
    ghost use Rattle.std.specs.Prelude.{◌-◌, nat_eq, vec_len, vec_capacity};
    ghost use Rattle.indexmap.specs.IndexMap.{get, spare};
    ghost use Rattle.sig_places.specs.Places.{Held, least};
    ghost use Rattle.sig_places.specs.Chains.{IsChained};

    ghost Value = { Held };

    ghost view = { λ p. record {
      entries = p.entries.items;
      room = least (spare p.newest) (least (vec_capacity p.entries - vec_len p.entries) (vec_capacity p.links - vec_len p.links));
    } };

    ghost invariant = { λ p. IsChained (get nat_eq p.newest) p.entries.items p.links.items };
}

impl Places {
    ghost use Rattle.std.specs.Prelude.{length};
    ghost use Rattle.sig_places.specs.Places.{places_of};

    /// None yet. It takes no memory.
    pub fn new(alloc: Global) -> Places
        ensures { result.entries ≡ [] }
    {
        Places {
            newest: IndexMap::new(alloc),
            entries: Vec::new(alloc),
            links: Vec::new(alloc),
        }
    }

    /// The places under a key, newest first. It takes no memory.
    pub fn of(&self, key: u64) -> PlacesOf<'_>
        ensures { result ≡ places_of key self.now.entries }
    {
        PlacesOf::from(
            self.entries.as_slice(),
            self.links.as_slice(),
            key,
            number_of(&self.newest, key),
        )
    }

    /// How many places are under a key. It takes no memory.
    pub fn count(&self, key: u64) -> usize
        ensures { result ≡ length (places_of key self.now.entries) }
    {
        let number = number_of(&self.newest, key);
        if number == 0 {
            return 0;
        }
        self.links[number - 1].count
    }

    /// Makes room for so many more. Out of memory is its only error.
    pub fn make_room(&mut self, more: usize) -> Result<(), Memory>
        ensures same { self.new.entries ≡ self.old.entries }
        ensures room { OnOk result (more ≤ self.new.room) }
    {
        self.entries.reserve(more)?;
        self.links.reserve(more)?;
        match self.newest.reserve(more) {
            Ok(()) => Ok(()),
            Err(_) => Err(Memory),
        }
    }

    /// The same places under the same keys. Out of memory is its only error.
    pub fn copy(&self, alloc: Global) -> Result<Places, Memory>
        ensures { IfOk result (λ p. p.entries ≡ self.now.entries) }
    {
        let mut copy = Places::new(alloc);
        copy.make_room(self.entries.len())?;
        for entry in self.entries.as_slice() {
            copy.put(entry.key, entry.place);
        }
        Ok(copy)
    }

    /// Puts a place under a key, for which there is room. It takes no memory.
    pub fn put(&mut self, key: u64, place: usize)
        requires { 0 < self.old.room }
        ensures put { self.new.entries ≡ self.old.entries ++ record { key = key; place = place } ∷ [] }
        ensures room { self.old.room ≤ self.new.room + 1 }
    {
        let count = self.count(key) + 1;
        // There is room, so no memory is asked for, and nothing of this can be refused.
        let _ = self.entries.push(Entry { key, place });
        let earlier = self.newest.insert(key, self.entries.len()).unwrap();
        let previous = earlier.unwrap_or(0);
        let _ = self.links.push(Link { previous, count });
    }
}

// The number of the newest entry of a key, counted from 1; 0 where it has none.
fn number_of(newest: &IndexMap<u64, usize>, key: u64) -> usize
    ensures { result ≡ unwrap_or (get nat_eq newest.now key) 0 }
{
    match newest.get(&key) {
        Some(number) => *number,
        None => 0,
    }
}
