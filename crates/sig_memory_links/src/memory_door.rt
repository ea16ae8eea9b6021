ghost use Rattle.std.specs.Prelude.{◌≡◌, [], None, Some, IfSome, IsNone, option_map};
ghost use Rattle.sig_memory_links.specs.Lent.{lent_one};
ghost use Rattle.sig_memory_links.specs.Doors.{IsComing, coming_of, served_on};
ghost use Rattle.sig_memory_links.specs.Memory.{pair_of, plan_of};

use crate::lent::{Lent, take_first};
use crate::planned::PlannedFaults;
use crate::{Coming, MemLink, MemSide};
use sig_json::Items;
use sig_links::{Accepted, Door, FaultCount};
use sig_outside::{Failed, Place};
use std::alloc::Global;
use std::marker::Model;

/// A door in memory. It tells the links that come, and what was written to those that were given back. An accept that is
/// refused memory fails.
#[derive(Drop)]
pub struct MemDoor {
    alloc: Global,
    place: Option<Place>,
    coming: Vec<Coming>,
    lent: Lent<Coming>,
    plan: PlannedFaults,
    faults: FaultCount,
}

impl Model for MemDoor {
    ghost use Rattle.std.specs.Prelude.{option_map};
    ghost use Rattle.sig_memory_links.specs.Doors.{MemoryDoor};
    ghost use Rattle.sig_memory_links.specs.Memory.{pair_of};

    ghost Value = { MemoryDoor };

    ghost view = { λ d. record { place = option_map pair_of d.place; coming = d.coming.items; lent = d.lent; plan = d.plan; faults = d.faults } };
}

impl MemDoor {
    /// The links that come, in order, and the numbers, from 0, of the accepts that are to fail. After the last one no
    /// further link comes.
    pub fn new(alloc: Global, links: Items<Coming>, failing: Items<u64>) -> MemDoor
        ensures { result ≡ record { place = None; coming = links; lent = record { back = []; out = 0 }; plan = record { numbers = failing; calls = 0 }; faults = 0 } }
    {
        MemDoor {
            alloc,
            place: None,
            coming: links.into_vec(),
            lent: Lent::new(alloc),
            plan: PlannedFaults::new(failing),
            faults: FaultCount::new(),
        }
    }

    /// The links that were given back with their sides, in order.
    pub fn back(&self) -> &[Coming]
        ensures { result.now ≡ self.now.lent.back }
    {
        self.lent.back()
    }

    /// How many accepts failed.
    pub fn faults(&self) -> u64
        ensures { result ≡ self.now.faults }
    {
        self.faults.count()
    }
}

impl MemDoor {
    // Makes it one that is handed out, and listens at this place.
    pub(crate) fn begin(&mut self, alloc: Global, place: Place)
        ensures { self.new ≡ record self.old { place = Some (pair_of place); lent = record { back = []; out = 0 }; faults = 0 } }
    {
        self.place = Some(place);
        self.lent = Lent::new(alloc);
        self.faults = FaultCount::new();
    }

    // The next link with its side, as they are accepted.
    fn next(&mut self) -> Option<Coming>
        ensures next { IfSome result (λ pair. IsComing pair self.old.coming self.new.coming) }
        ensures lent { IfSome result (λ pair. self.new.lent ≡ lent_one self.old.lent) }
        ensures none { IsNone result → (self.new.coming ≡ self.old.coming) × (self.new.lent ≡ self.old.lent) }
        ensures others { (self.new.place ≡ self.old.place) × (self.new.faults ≡ self.old.faults) }
    {
        if self.coming.is_empty() {
            return None;
        }
        self.lent.lend().ok()?;
        let Coming { mut link, mut side } = take_first(&mut self.coming)?;
        link.begin(None);
        side.begin();
        Some(Coming { link, side })
    }
}

impl Door for MemDoor {
    type L = MemLink;

    type S = MemSide;

    ghost use Rattle.std.specs.Prelude.{Some, map};

    ghost view = { λ d. record { coming = Some (map coming_of d.coming); served = Some (map served_on d.lent.back); out = d.lent.out; place = d.place; faults = d.faults } };

    ghost plan = { plan_of };

    fn accept(&mut self) -> Result<Accepted<MemLink, MemSide>, Failed> {
        if self.plan.fails_next() {
            return Err(self.faults.raise());
        }
        if self.coming.is_empty() {
            return Ok(Accepted::Shut);
        }
        match self.next() {
            Some(Coming { link, side }) => Ok(Accepted::Link { link, side }),
            None => Err(self.faults.raise()),
        }
    }

    fn back(&mut self, link: MemLink, side: MemSide) {
        self.lent.take_back(Coming { link, side });
    }

    fn own_side(&mut self) -> MemSide {
        MemSide::idle(self.alloc)
    }

    // A link in memory waits for nobody.
    fn hurry(&mut self) {}
}
