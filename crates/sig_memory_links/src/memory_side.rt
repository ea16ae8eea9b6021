ghost use Rattle.std.specs.Prelude.{◌≡◌, [], IfOk, IfSome, IsErr, IsNone, IsTrue, OnErr, OnOk};
ghost use Rattle.sig_outside.specs.Causes.{HasCause};
ghost use Rattle.sig_memory_links.specs.Lent.{called, fails_next, lent_one};
ghost use Rattle.sig_memory_links.specs.Memory.{IsNext, begun_side, plan_of, sent_on};

use crate::MemLink;
use crate::lent::{Lent, take_first};
use crate::planned::PlannedFaults;
use sig_json::Items;
use sig_links::{FaultCount, Side};
use sig_outside::{Failed, Place};
use std::alloc::Global;
use std::marker::Model;

/// A side in memory. It tells the links that its dials will give, its times, and what was sent.
///
/// A dial that is refused memory fails.
#[derive(Drop)]
pub struct MemSide {
    alloc: Global,
    ahead: Vec<MemLink>,
    lent: Lent<MemLink>,
    times: Vec<u64>,
    plan: PlannedFaults,
    faults: FaultCount,
}

impl Model for MemSide {
    ghost use Rattle.sig_memory_links.specs.Memory.{MemorySide};

    ghost Value = { MemorySide };

    ghost view = { λ s. record { ahead = s.ahead.items; lent = s.lent; times = s.times.items; plan = s.plan; faults = s.faults } };
}

impl MemSide {
    /// The links of its dials and its times, in order, and the numbers, from 0, of the dials that are to fail. After the
    /// last time that one is told again, 0 where there is none.
    pub fn new(
        alloc: Global,
        links: Items<MemLink>,
        times: Items<u64>,
        failing: Items<u64>,
    ) -> MemSide
        ensures { result ≡ record { ahead = links; lent = record { back = []; out = 0 }; times = times; plan = record { numbers = failing; calls = 0 }; faults = 0 } }
    {
        MemSide {
            alloc,
            ahead: links.into_vec(),
            lent: Lent::new(alloc),
            times: times.into_vec(),
            plan: PlannedFaults::new(failing),
            faults: FaultCount::new(),
        }
    }

    /// A side that has no link ahead and no time.
    pub(crate) fn idle(alloc: Global) -> MemSide
        ensures { result ≡ record { ahead = []; lent = record { back = []; out = 0 }; times = []; plan = record { numbers = []; calls = 0 }; faults = 0 } }
    {
        let links = Items::of(Vec::new(alloc));
        let times = Items::of(Vec::new(alloc));
        MemSide::new(alloc, links, times, Items::of(Vec::new(alloc)))
    }

    /// The links that were given back, in order.
    pub fn back(&self) -> &[MemLink]
        ensures { result.now ≡ self.now.lent.back }
    {
        self.lent.back()
    }

    /// How many dials failed, with the faults of the links that were given back.
    pub fn faults(&self) -> u64
        ensures { result ≡ self.now.faults }
    {
        self.faults.count()
    }

    // Makes it one that is handed out.
    pub(crate) fn begin(&mut self)
        ensures { self.new ≡ begun_side self.old }
    {
        self.lent = Lent::new(self.alloc);
        self.faults = FaultCount::new();
    }
}

impl MemSide {
    // The next link, as one that was dialled at this place.
    fn next(&mut self, place: &Place) -> Option<MemLink>
        ensures next { IfSome result (λ link. IsNext place.now link self.old.ahead self.new.ahead) }
        ensures lent { IfSome result (λ link. self.new.lent ≡ lent_one self.old.lent) }
        ensures planned { IsTrue (fails_next self.old.plan) → IsNone result }
        ensures called { self.new.plan ≡ called self.old.plan }
        ensures none { IsNone result → (self.new.ahead ≡ self.old.ahead) × (self.new.lent ≡ self.old.lent) }
        ensures others { (self.new.times ≡ self.old.times) × (self.new.faults ≡ self.old.faults) }
    {
        if self.plan.fails_next() || self.ahead.is_empty() {
            return None;
        }
        let kept = place.copy(self.alloc).ok()?;
        self.lent.lend().ok()?;
        let mut link = take_first(&mut self.ahead)?;
        link.begin(Some(kept));
        Some(link)
    }
}

impl Side for MemSide {
    type L = MemLink;

    ghost use Rattle.std.specs.Prelude.{Some, map};

    ghost view = { λ s. record { ahead = Some (map plan_of s.ahead); times = Some s.times; sent = Some (map sent_on s.lent.back); faults = s.faults } };

    ghost out = { λ s. s.lent.out };

    ghost plan = { plan_of };

    fn dial(&mut self, place: &Place) -> Result<MemLink, Failed>
        ensures next { IfOk result (λ link. IsNext place.now link self.old.ahead self.new.ahead) }
        ensures lent { OnOk result (self.new.lent ≡ lent_one self.old.lent) }
        ensures none { OnErr result ((self.new.ahead ≡ self.old.ahead) × (self.new.lent ≡ self.old.lent)) }
        ensures times { self.new.times ≡ self.old.times }
        ensures cause { HasCause self.old.faults self.new.faults result }

        // It fails where that is planned, and else only where no link is ahead or it is refused memory.
        ensures planned { IsTrue (fails_next self.old.plan) → IsErr result }
        ensures called { self.new.plan ≡ called self.old.plan }
    {
        match self.next(place) {
            Some(link) => Ok(link),
            None => Err(self.faults.raise()),
        }
    }

    // A side in memory has no bound in time.
    fn begin_round(&mut self) {}

    // Nobody runs a side in memory.
    fn note(&mut self, _topic: Option<&str>, _line: &str) {}

    fn now(&mut self) -> u64 {
        if self.times.len() > 1 {
            return self.times.remove(0);
        }
        if self.times.is_empty() {
            return 0;
        }
        self.times[0]
    }

    fn back(&mut self, link: MemLink) {
        self.faults.gather(link.read_faults());
        self.faults.gather(link.write_faults());
        self.lent.take_back(link);
    }
}
