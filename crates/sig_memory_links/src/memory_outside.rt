ghost use Rattle.std.specs.Prelude.{◌≡◌, ◌⊎◌, ◌↔◌, [], IfNone, IfOk, IfSome, IsErr, IsNone, IsTrue, None, OnErr, OnOk, Some, is_some, option_map, true};
ghost use Rattle.sig_outside.specs.Causes.{HasCause};
ghost use Rattle.sig_links.specs.Told.{KeepsOthers};
ghost use Rattle.sig_memory_links.specs.Lent.{called, fails_next, lent_one};
ghost use Rattle.sig_memory_links.specs.Memory.{pair_of};
ghost use Rattle.sig_memory_links.specs.Outside.{IsDiskOf, IsNextDoor, disk_of, is_out, is_there, settings_told, source_of, store_told, without_disk, without_source};

use crate::outside_doors::HeldDoors;
use crate::outside_settings::HeldSettings;
use crate::outside_sides::HeldSides;
use crate::outside_stores::HeldStores;
use crate::planned::PlannedFaults;
use crate::{LentDisk, LentSource, MemDoor, MemSide, NamedDisk, NamedSource};
use sig_json::Items;
use sig_links::{FaultCount, Outside};
use sig_outside::{Failed, MemDisk, Place};
use std::alloc::Global;
use std::marker::Model;

/// An outside in memory. It tells its settings and stores by their names, and its doors and sides in order.
///
/// What comes back is kept: settings and stores under their names, doors and sides in order. What it didn't hand out isn't
/// kept. A call that is refused memory fails.
#[derive(Drop)]
pub struct MemOutside {
    alloc: Global,
    settings: HeldSettings,
    stores: HeldStores,
    doors: HeldDoors,
    sides: HeldSides,
    plan: PlannedFaults,
    settings_faults: FaultCount,
    store_faults: FaultCount,
    network_faults: FaultCount,
}

impl Model for MemOutside {
    ghost use Rattle.sig_memory_links.specs.Outside.{MemoryOutside};

    ghost Value = { MemoryOutside };

    ghost view = { λ o. record { settings = o.settings; stores = o.stores; doors = o.doors; sides = o.sides; plan = o.plan; settings_faults = o.settings_faults; store_faults = o.store_faults; network_faults = o.network_faults } };
}

impl MemOutside {
    /// Settings and stores by their names, of which the first with a name counts; doors and sides, which are handed out in
    /// order; and the numbers, from 0, of the calls that are to fail. The calls for settings, stores and doors are numbered
    /// together.
    ///
    /// A store that isn't there is made empty, and after the last side one comes that has no links and no times. Where no
    /// settings have a name, and where no door is left, a call fails. It grows with this allocator.
    pub fn new(
        alloc: Global,
        settings: Items<NamedSource>,
        stores: Items<NamedDisk>,
        doors: Items<MemDoor>,
        sides: Items<MemSide>,
        failing: Items<u64>,
    ) -> MemOutside
        ensures settings { result.settings ≡ record { there = settings; out = 0 } }
        ensures stores { result.stores ≡ record { there = stores; out = [] } }
        ensures doors { result.doors ≡ record { ahead = doors; lent = record { back = []; out = 0 } } }
        ensures sides { result.sides ≡ record { ahead = sides; lent = record { back = []; out = 0 } } }
        ensures plan { result.plan ≡ record { numbers = failing; calls = 0 } }
        ensures faults { (result.settings_faults ≡ 0) × (result.store_faults ≡ 0) × (result.network_faults ≡ 0) }
    {
        MemOutside {
            alloc,
            settings: HeldSettings::new(settings),
            stores: HeldStores::new(alloc, stores),
            doors: HeldDoors::new(alloc, doors),
            sides: HeldSides::new(sides),
            plan: PlannedFaults::new(failing),
            settings_faults: FaultCount::new(),
            store_faults: FaultCount::new(),
            network_faults: FaultCount::new(),
        }
    }

    /// The disk of the store with this name, where it is there.
    pub fn disk(&self, name: &str) -> Option<&MemDisk>
        ensures { option_map (λ disk. disk.now) result ≡ option_map (λ given. given.disk) (disk_of name.now self.now.stores) }
    {
        self.stores.disk(name)
    }

    /// The doors that were given back, in order.
    pub fn doors_back(&self) -> &[MemDoor]
        ensures { result.now ≡ self.now.doors.lent.back }
    {
        self.doors.back()
    }

    /// The sides that were given back, in order.
    pub fn sides_back(&self) -> &[MemSide]
        ensures { result.now ≡ self.now.sides.lent.back }
    {
        self.sides.back()
    }
}

impl Outside for MemOutside {
    type I = LentSource;

    type D = LentDisk<MemDisk>;

    type A = MemDoor;

    ghost use Rattle.std.specs.Prelude.{Some, map};
    ghost use Rattle.sig_memory_links.specs.Doors.{coming_of};
    ghost use Rattle.sig_memory_links.specs.Outside.{door_end_on, is_out, is_there, settings_told, side_end_on, side_plan, store_told};

    ghost settings_of = { λ o. settings_told o.settings };

    ghost held = { λ o. store_told o.stores };

    ghost lent = { λ o. is_out o.stores };

    ghost there = { λ o. is_there o.stores };

    ghost doors = { λ o. Some (map (λ door. map coming_of door.coming) o.doors.ahead) };

    ghost doors_out = { λ o. o.doors.lent.out };

    ghost doors_back = { λ o. Some (map door_end_on o.doors.lent.back) };

    ghost sides = { λ o. Some (map side_plan o.sides.ahead) };

    ghost sides_out = { λ o. o.sides.lent.out };

    ghost sides_back = { λ o. Some (map side_end_on o.sides.lent.back) };

    ghost settings_faults = { λ o. o.settings_faults };

    ghost store_faults = { λ o. o.store_faults };

    ghost network_faults = { λ o. o.network_faults };

    // It fails exactly where that is planned or no settings have this name.
    #[tactic(auto, using(crate::proofs::NamedLemmas::others_found))]
    fn settings(&mut self, name: &str) -> Result<LentSource, Failed>
        ensures given { IfOk result (λ source. (source_of name.now self.old.settings ≡ Some source.named) × (source.faults ≡ 0)) }
        ensures out { OnOk result (self.new.settings ≡ without_source name.now self.old.settings) }
        ensures none { OnErr result (self.new.settings ≡ self.old.settings) }
        ensures named { KeepsOthers name.now (settings_told self.old.settings) (settings_told self.new.settings) }
        ensures fails { IsErr result ↔ IsTrue (fails_next self.old.plan) ⊎ (source_of name.now self.old.settings ≡ None) }
        ensures others { self.new ≡ record self.old { settings = self.new.settings; plan = called self.old.plan; settings_faults = self.new.settings_faults } }
        ensures cause { HasCause self.old.settings_faults self.new.settings_faults result }
    {
        if self.plan.fails_next() {
            return Err(self.settings_faults.raise());
        }
        match self.settings.take(name) {
            Some(source) => Ok(source),
            None => Err(self.settings_faults.raise()),
        }
    }

    #[tactic(auto, using(crate::proofs::NamedLemmas::stays_found))]
    fn back_settings(&mut self, source: LentSource) {
        self.settings_faults.gather(source.faults());
        self.settings.take_back(source);
    }

    // It fails where that is planned, and else only where it is refused memory.
    #[tactic(auto, using(crate::proofs::NamedLemmas::others_found, crate::proofs::NamedLemmas::own_name, crate::proofs::NamedLemmas::other_name))]
    fn store(&mut self, name: &str) -> Result<LentDisk<MemDisk>, Failed>
        ensures given { IfOk result (λ disk. IsDiskOf (disk_of name.now self.old.stores) disk.disk × (disk.faults ≡ 0)) }
        ensures out { OnOk result (self.new.stores ≡ without_disk name.now self.old.stores) }
        ensures none { OnErr result (self.new.stores ≡ self.old.stores) }
        ensures named { KeepsOthers name.now (store_told self.old.stores) (store_told self.new.stores) × KeepsOthers name.now (is_out self.old.stores) (is_out self.new.stores) }
        ensures made { OnOk result (is_there self.new.stores name.now ≡ Some true) × KeepsOthers name.now (is_there self.old.stores) (is_there self.new.stores) }
        ensures planned { IsTrue (fails_next self.old.plan) → IsErr result }
        ensures others { self.new ≡ record self.old { stores = self.new.stores; plan = called self.old.plan; store_faults = self.new.store_faults } }
        ensures cause { HasCause self.old.store_faults self.new.store_faults result }
    {
        if self.plan.fails_next() {
            return Err(self.store_faults.raise());
        }
        match self.stores.take(name) {
            Ok(disk) => Ok(disk),
            Err(_) => Err(self.store_faults.raise()),
        }
    }

    // It fails where that is planned or the store is out, and else only where it is refused memory.
    fn existing_store(&mut self, name: &str) -> Result<Option<LentDisk<MemDisk>>, Failed>
        ensures found { IfOk result (λ found. is_there self.old.stores name.now ≡ Some (is_some found)) }
        ensures given { IfOk result (λ found. option_map (λ disk. disk.disk) found ≡ option_map (λ given. given.disk) (disk_of name.now self.old.stores)) }
        ensures new { IfOk result (λ found. IfSome found (λ disk. disk.faults ≡ 0)) }
        ensures out { IfOk result (λ found. IfSome found (λ disk. self.new.stores ≡ without_disk name.now self.old.stores)) }
        ensures left { IfOk result (λ found. IfNone found (self.new.stores ≡ self.old.stores)) }
        ensures none { OnErr result (self.new.stores ≡ self.old.stores) }
        ensures named { KeepsOthers name.now (store_told self.old.stores) (store_told self.new.stores) × KeepsOthers name.now (is_out self.old.stores) (is_out self.new.stores) }
        ensures stay { is_there self.new.stores ≡ is_there self.old.stores }
        ensures planned { IsTrue (fails_next self.old.plan) → IsErr result }
        ensures others { self.new ≡ record self.old { stores = self.new.stores; plan = called self.old.plan; store_faults = self.new.store_faults } }
        ensures cause { HasCause self.old.store_faults self.new.store_faults result }
    {
        if self.plan.fails_next() {
            return Err(self.store_faults.raise());
        }
        match self.stores.find(name) {
            Ok(found) => Ok(found),
            Err(_) => Err(self.store_faults.raise()),
        }
    }

    #[tactic(auto, using(crate::proofs::NamedLemmas::others_found, crate::proofs::NamedLemmas::own_name, crate::proofs::NamedLemmas::other_name))]
    fn put_back(&mut self, name: &str, disk: LentDisk<MemDisk>) {
        self.store_faults.gather(disk.faults());
        self.stores.take_back(name, disk);
    }

    // It fails where that is planned, and else only where no door is ahead or it is refused memory.
    fn door(&mut self, place: &Place) -> Result<MemDoor, Failed>
        ensures next { IfOk result (λ door. IsNextDoor (Some (pair_of place.now)) door self.old.doors.ahead self.new.doors.ahead) }
        ensures lent { OnOk result (self.new.doors.lent ≡ lent_one self.old.doors.lent) }
        ensures none { OnErr result (self.new.doors ≡ self.old.doors) }
        ensures planned { IsTrue (fails_next self.old.plan) → IsErr result }
        ensures others { self.new ≡ record self.old { doors = self.new.doors; plan = called self.old.plan; network_faults = self.new.network_faults } }
        ensures cause { HasCause self.old.network_faults self.new.network_faults result }
    {
        if self.plan.fails_next() {
            return Err(self.network_faults.raise());
        }
        match self.doors.take(place) {
            Some(door) => Ok(door),
            None => Err(self.network_faults.raise()),
        }
    }

    // Nobody runs it.
    fn note(&mut self, _line: &str) {}

    fn side(&mut self) -> MemSide {
        match self.sides.take() {
            Some(side) => side,
            None => MemSide::idle(self.alloc),
        }
    }

    fn back_door(&mut self, door: MemDoor) {
        self.network_faults.gather(door.faults());
        self.doors.take_back(door);
    }

    fn back_side(&mut self, side: MemSide) {
        self.network_faults.gather(side.faults());
        self.sides.take_back(side);
    }
}
