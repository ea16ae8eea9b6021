ghost use Rattle.std.specs.Prelude.{◌≡◌, ◌<◌, ◌≤◌, [], List, Some, IfOk, OnOk, length, map};
ghost use Rattle.std.specs.List.{insert, remove, slice_get, slice_set};
ghost use Rattle.sig_subject.specs.declared.subject.Subject.{Subject};
ghost use Rattle.sig_history.specs.Streams.{list_added, list_removed};
ghost use Rattle.sig_accounts.specs.Listening.{AreBelow, IsListening, is_among, room_for};

use crate::lists::{Lists, add_seat, copy_lists, remove_seat, reserve_seat};
use crate::subjects::Subjects;
use crate::told_streams::ToldStreams;
use indexmap::IndexMap;
use sig_json::Memory;
use sig_subject::Subject;
use std::alloc::Global;
use std::hash::BuildHasherDefault;
use std::marker::Model;

/// Which streams list a subject: it is one look-up, however many stand.
///
/// Contracts see the seats of the streams, and those that stand under each subject.
pub struct Listeners {
    alloc: Global,
    // At each place the seat of its stream, which no other one ever had.
    seats: Vec<usize>,
    next: usize,
    lists: Lists,
}

impl Drop for Listeners {
    fn drop(self) {
        let Listeners {
            alloc: _,
            seats,
            next: _,
            lists,
        } = self;
        drop(seats);
        drop(lists);
    }
}

impl Model for Listeners {
    ghost use Rattle.std.specs.Prelude.{◌-◌, ◌^◌, min, vec_len, vec_capacity};
    ghost use Rattle.sig_accounts.specs.Listening.{Listening};

    ghost Value = { Listening };

    ghost view = { λ l. record {
      seats = l.seats.items;
      next = l.next;
      lists = l.lists.entries;
      room = min (vec_capacity l.seats - vec_len l.seats) (2 ^ 64 - 1 - l.next);
    } };
}

impl Listeners {
    /// No stream stands. It takes no memory.
    pub fn new(alloc: Global) -> Listeners
        ensures { IsListening result [] }
    {
        Listeners {
            alloc,
            seats: Vec::new(alloc),
            next: 0,
            lists: IndexMap::with_hasher(alloc, BuildHasherDefault::new()),
        }
    }

    /// The same streams under the same subjects.
    pub fn copy(&self) -> Result<Listeners, Memory>
        ensures { IfOk result (λ l. (lists : List (List Subject)) → IsListening self.now lists → IsListening l lists) }
    {
        let alloc = self.alloc;
        let seats = Vec::from_slice(alloc, self.seats.as_slice())?;
        let lists = copy_lists(alloc, &self.lists)?;
        Ok(Listeners {
            alloc,
            seats,
            next: self.next,
            lists,
        })
    }

    /// Room for one more stream.
    pub fn reserve(&mut self) -> Result<(), Memory>
        ensures same { (lists : List (List Subject)) → IsListening self.old lists → IsListening self.new lists }
        ensures ok { OnOk result (0 < self.new.room) }
    {
        self.seats.reserve(1)?;
        if self.next == usize::MAX {
            return Err(Memory);
        }
        Ok(())
    }

    /// Room for one more stream under a subject.
    pub fn reserve_subject(&mut self, subject: &Subject) -> Result<(), Memory>
        ensures same { (lists : List (List Subject)) → IsListening self.old lists → IsListening self.new lists }
        ensures ok { OnOk result (0 < room_for subject.now self.new.lists) }
    {
        reserve_seat(self.alloc, &mut self.lists, subject)
    }

    /// A stream that lists nothing comes to stand at a place. It takes no memory.
    pub fn open(&mut self, place: usize)
        requires within { place ≤ length self.old.seats }
        requires room { 0 < self.old.room }
        ensures { (lists : List (List Subject)) → IsListening self.old lists → IsListening self.new (insert lists place []) }
    {
        // There is room, so the insertion keeps the seat.
        let _ = self.seats.insert(place, self.next);
        self.next += 1;
    }

    /// The stream at a place comes to list a subject. It takes no memory.
    pub fn enter(&mut self, place: usize, subject: &Subject)
        requires { 0 < room_for subject.now self.old.lists }
        ensures { (lists : List (List Subject)) (list : List Subject) → slice_get lists place ≡ Some list
            → IsListening self.old lists → IsListening self.new (slice_set lists place (list_added subject.now list)) }
    {
        if let Some(seat) = self.seats.get(place) {
            add_seat(&mut self.lists, subject, *seat);
        }
    }

    /// The stream at a place no longer lists a subject. It costs by how many list that subject, and takes no memory.
    pub fn leave(&mut self, place: usize, subject: &Subject)
        ensures { (lists : List (List Subject)) (list : List Subject) → slice_get lists place ≡ Some list
            → IsListening self.old lists → IsListening self.new (slice_set lists place (list_removed subject.now list)) }
    {
        if let Some(seat) = self.seats.get(place) {
            remove_seat(&mut self.lists, subject, *seat);
        }
    }

    /// The stream at a place, which lists these subjects, stands no longer. It costs by its own list, and takes no memory.
    pub fn close(&mut self, place: usize, listed: &Subjects)
        ensures { (lists : List (List Subject)) → slice_get lists place ≡ Some listed.now.listed
            → IsListening self.old lists → IsListening self.new (remove lists place) }
    {
        if let Some(seat) = self.seats.get(place) {
            let seat = *seat;
            listed.leave(&mut self.lists, seat);
            let _ = self.seats.remove(place);
        }
    }

    /// At which places a stream lists a subject. It is one look-up.
    pub fn heard_at(&self, alloc: Global, subject: &Subject) -> Result<ToldStreams, Memory>
        requires { AreBelow self.now.next self.now.seats }
        ensures { IfOk result (λ told. told ≡ map (λ seat. is_among subject.now seat self.now.lists) self.now.seats) }
    {
        match self.lists.get(subject) {
            None => ToldStreams::unmarked(alloc, self.seats.len()),
            Some(among) => {
                ToldStreams::seated(alloc, self.seats.as_slice(), among.as_slice(), self.next)
            }
        }
    }
}
