ghost use Rattle.std.specs.Prelude.{◌≡◌, ◌++◌, ◌∷◌, ◌+◌, ◌<◌, [], length, OnOk};

use std::alloc::{AllocError, Global};
use std::marker::Model;
use std::snapshot::Snapshot;

/// What was, one after the other. Contracts see all of it; when the program runs, nothing of it is kept but how much it is.
#[derive(Drop)]
pub struct Past<T> {
    // These have no bytes.
    snapshots: Vec<Snapshot<T>>,
}

impl<T> Model for Past<T> {
    ghost use Rattle.std.specs.Prelude.{vec_capacity};
    ghost use Rattle.sig_past.specs.Past.{PastOf, values_of};

    ghost Value = { PastOf T };

    ghost view = { λ p. record { items = values_of p.snapshots.items; room = vec_capacity p.snapshots } };
}

impl<T> Past<T> {
    /// Nothing yet.
    pub fn new(alloc: Global) -> Past<T>
        ensures { result.items ≡ [] }
    {
        Past {
            snapshots: Vec::new(alloc),
        }
    }

    /// Makes room for one more.
    pub fn reserve(&mut self) -> Result<(), AllocError>
        ensures same { self.new.items ≡ self.old.items }
        ensures room { OnOk result (length self.new.items < self.new.room) }
    {
        self.snapshots.reserve(1)
    }

    /// Puts one last, for which there is room.
    pub fn put(&mut self, item: &T)
        requires { length self.old.items < self.old.room }
        ensures { self.new.items ≡ self.old.items ++ item.now ∷ [] }
    {
        self.snapshots.push_reserved(Snapshot::of(item));
    }

    /// How much there was.
    pub fn len(&self) -> usize
        ensures { result ≡ length self.now.items }
    {
        self.snapshots.len()
    }

    /// The number of the next one, counted from 1, for which there is room.
    pub fn next_number(&self) -> u64
        requires { length self.now.items < self.now.room }
        ensures { result ≡ length self.now.items + 1 }
    {
        self.snapshots.len() as u64 + 1
    }
}
