//! Where the first publication of each id stands.

ghost use Rattle.std.specs.Prelude.{◌≡◌, ◌<◌, ◌++◌, ◌∷◌, [], IfOk, OnOk, find};
ghost use Rattle.sig_history.specs.Streams.{Publication};
ghost use Rattle.sig_accounts.specs.Places.{IsIndex, place_in, stands_at};

use crate::publication::Publication;
use crate::publish_id::digest_of;
use indexmap::IndexMap;
use sig_json::Memory;
use std::alloc::Global;
use std::marker::Model;

/// The place of the first publication of each id, by the id's digest: the id itself stands with the publication alone.
///
/// Contracts see what it gives, and for how many further ids there is room.
pub struct Places {
    // For each digest the place of the first publication that has it.
    given: IndexMap<u64, usize>,
    // The places of the first publications of the other ids that have such a digest. Of a billion ids hardly one is here.
    others: Vec<usize>,
}

impl Drop for Places {
    fn drop(self) {
        let Places { given, others } = self;
        drop(given);
        drop(others);
    }
}

impl Model for Places {
    ghost use Rattle.std.specs.Prelude.{◌-◌, min, vec_len, vec_capacity};
    ghost use Rattle.indexmap.specs.IndexMap.{spare};
    ghost use Rattle.sig_accounts.specs.Places.{Held};

    ghost Value = { Held };

    ghost view = { λ p. record {
      index = record { given = p.given.entries; others = p.others.items };
      room = min (spare p.given) (vec_capacity p.others - vec_len p.others);
    } };
}

impl Places {
    /// Of no publication. It takes no memory.
    pub fn new(alloc: Global) -> Places
        ensures { IsIndex result.index [] }
    {
        Places {
            given: IndexMap::new(alloc),
            others: Vec::new(alloc),
        }
    }

    /// The same index.
    pub fn copy(&self, alloc: Global) -> Result<Places, Memory>
        ensures { IfOk result (λ p. p.index ≡ self.now.index) }
    {
        let given = self.given.clone()?;
        let others = Vec::from_slice(alloc, self.others.as_slice())?;
        Ok(Places { given, others })
    }

    /// The place of the first publication of this id. It is one look-up, and takes no memory.
    pub fn place_of(&self, published: &[Publication], id: &str) -> Option<usize>
        ensures { result ≡ place_in self.now.index published.now id.now }
    {
        match self.given.get(&digest_of(id)) {
            Some(place) if has_id_at(published, *place, id) => Some(*place),
            _ => place_among(published, self.others.as_slice(), id),
        }
    }

    /// Room for one more id.
    pub fn reserve(&mut self) -> Result<(), Memory>
        ensures same { self.new.index ≡ self.old.index }
        ensures room { OnOk result (0 < self.new.room) }
    {
        self.others.reserve(1)?;
        match self.given.reserve(1) {
            Ok(()) => Ok(()),
            Err(_) => Err(Memory),
        }
    }

    /// Takes in that one more publication stands behind those, of this id. It takes no memory.
    pub fn enter(&mut self, published: &[Publication], id: &str)
        requires room { 0 < self.old.room }
        requires index { IsIndex self.old.index published.now }
        ensures { (p : Publication) → p.id ≡ id.now → IsIndex self.new.index (published.now ++ p ∷ []) }
    {
        if self.place_of(published, id).is_some() {
            return;
        }
        let place = published.len();
        let digest = digest_of(id);
        // There is room, so neither asks for memory.
        if self.given.contains_key(&digest) {
            let _ = self.others.push(place);
        } else {
            let _ = self.given.insert(digest, place).unwrap();
        }
    }
}

// Whether the publication at a place has this id.
fn has_id_at(published: &[Publication], place: usize, id: &str) -> bool
    ensures { result ≡ stands_at id.now published.now place }
{
    match published.get(place) {
        None => false,
        Some(publication) => publication.is_named(id),
    }
}

// The first of these places whose publication has this id.
fn place_among(published: &[Publication], places: &[usize], id: &str) -> Option<usize>
    ensures { result ≡ find (stands_at id.now published.now) places.now }
{
    for place in places {
        if has_id_at(published, *place, id) {
            return Some(*place);
        }
    }
    None
}
