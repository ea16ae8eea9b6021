//! The doors of an outside in memory.

ghost use Rattle.std.specs.Prelude.{◌≡◌, [], Some, IfSome, IsNone};
ghost use Rattle.sig_memory_links.specs.Lent.{lent_one, taken_back};
ghost use Rattle.sig_memory_links.specs.Memory.{pair_of};
ghost use Rattle.sig_memory_links.specs.Outside.{IsNextDoor};

use crate::MemDoor;
use crate::lent::{Lent, take_first};
use sig_json::Items;
use sig_outside::Place;
use std::alloc::Global;
use std::marker::Model;

// Doors in order, and those that are out or came back.
#[derive(Drop)]
pub(crate) struct HeldDoors {
    alloc: Global,
    ahead: Vec<MemDoor>,
    lent: Lent<MemDoor>,
}

impl Model for HeldDoors {
    ghost use Rattle.sig_memory_links.specs.Doors.{MemoryDoor};
    ghost use Rattle.sig_memory_links.specs.Outside.{Handed};

    ghost Value = { Handed MemoryDoor };

    ghost view = { λ d. record { ahead = d.ahead.items; lent = d.lent } };
}

impl HeldDoors {
    pub(crate) fn new(alloc: Global, doors: Items<MemDoor>) -> HeldDoors
        ensures { result ≡ record { ahead = doors; lent = record { back = []; out = 0 } } }
    {
        HeldDoors {
            alloc,
            ahead: doors.into_vec(),
            lent: Lent::new(alloc),
        }
    }

    // The next door, as one that listens at this place. None comes where none is ahead, and out of memory.
    pub(crate) fn take(&mut self, place: &Place) -> Option<MemDoor>
        ensures next { IfSome result (λ door. IsNextDoor (Some (pair_of place.now)) door self.old.ahead self.new.ahead) }
        ensures lent { IfSome result (λ door. self.new.lent ≡ lent_one self.old.lent) }
        ensures none { IsNone result → self.new ≡ self.old }
    {
        if self.ahead.is_empty() {
            return None;
        }
        let kept = place.copy(self.alloc).ok()?;
        self.lent.lend().ok()?;
        let mut door = take_first(&mut self.ahead)?;
        door.begin(self.alloc, kept);
        Some(door)
    }

    // Takes back a door. It isn't kept where none is out.
    pub(crate) fn take_back(&mut self, door: MemDoor)
        ensures { self.new ≡ record { ahead = self.old.ahead; lent = taken_back door self.old.lent.back self.old.lent.out } }
    {
        self.lent.take_back(door);
    }

    // The doors that came back, in order.
    pub(crate) fn back(&self) -> &[MemDoor]
        ensures { result.now ≡ self.now.lent.back }
    {
        self.lent.back()
    }
}
