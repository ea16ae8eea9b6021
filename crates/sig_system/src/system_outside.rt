ghost use Rattle.std.specs.Prelude.{◌≡◌, None, Some, IfOk, IfErr, IfSome, OnErr, OnOk};
ghost use Rattle.sig_outside.specs.Causes.{HasCause};
ghost use Rattle.sig_system.specs.Adapters.{IsOfDoor, IsOfStore, pair_of};

use crate::{FileDisk, Notes, OpenFault, OutsideFault, ReaderSource, TcpDoor, TcpSide};
use sig_links::{FaultCount, Outside};
use sig_outside::{Failed, Place};
use std::alloc::Global;
use std::fs::{File, Files};
use std::marker::Model;
use std::net::{Net, TcpListener, TcpStream};
use std::rt::Clock;
use std::time::Duration;

// How many milliseconds a place that is in use is left alone before it is asked for again.
const DOOR_MILLISECONDS: u64 = 100;

// How often it is asked for again: for ten seconds.
const DOOR_TRIES: u32 = 100;

/// The system as the outside: settings and stores are files by their paths, doors and sides are those over TCP. It tells
/// nothing of their content, and counts their faults. `R` is a handle on the system, as a reference to the runtime.
#[derive(Drop)]
pub struct SystemOutside<R> {
    rt: R,
    alloc: Global,
    settings: FaultCount,
    stores: FaultCount,
    network: FaultCount,
    last: Option<OutsideFault>,
    notes: Notes,
}

impl<R> Model for SystemOutside<R> {
    ghost use Rattle.sig_system.specs.Adapters.{OutsideCounts};

    ghost Value = { OutsideCounts };

    ghost view = { λ o. record { settings = o.settings; stores = o.stores; network = o.network; last = o.last } };
}

impl<R> SystemOutside<R> {
    /// An outside that has met no fault.
    pub fn new(alloc: Global, rt: R) -> SystemOutside<R>
        ensures { result ≡ record { settings = 0; stores = 0; network = 0; last = None } }
    {
        SystemOutside {
            rt,
            alloc,
            settings: FaultCount::new(),
            stores: FaultCount::new(),
            network: FaultCount::new(),
            last: None,
            notes: Notes::new(alloc),
        }
    }

    /// Why the last of the calls `settings`, `store`, `existing_store` and `door` failed that did, for the message to the
    /// operator.
    pub fn last_fault(&self) -> Option<OutsideFault>
        ensures { result ≡ self.now.last }
    {
        self.last
    }
}

impl<
    R: Net<Listener = TcpListener, Stream = TcpStream>
        + Files<File = File>
        + Clock
        + Eprint
        + Copy
        + Send,
> Outside for SystemOutside<R> {
    type I = ReaderSource<File>;

    type D = FileDisk;

    type A = TcpDoor<R>;

    ghost use Rattle.std.specs.Prelude.{None, true};

    ghost settings_of = { λ o name. None };

    ghost held = { λ o name. None };

    ghost lent = { λ o name. true };

    ghost there = { λ o name. None };

    ghost doors = { λ o. None };

    ghost doors_out = { λ o. 0 };

    ghost doors_back = { λ o. None };

    ghost sides = { λ o. None };

    ghost sides_out = { λ o. 0 };

    ghost sides_back = { λ o. None };

    ghost settings_faults = { λ o. o.settings };

    ghost store_faults = { λ o. o.stores };

    ghost network_faults = { λ o. o.network };

    fn settings(&mut self, name: &str) -> Result<ReaderSource<File>, Failed>
        ensures whole { IfOk result (λ source. source.faults ≡ 0) }
        ensures done { OnOk result (self.new ≡ self.old) }
        ensures why { OnErr result (self.new ≡ record self.old { settings = self.new.settings; last = Some OutsideFault.Settings }) }
        ensures cause { HasCause self.old.settings self.new.settings result }
    {
        match open_settings(&self.rt, name) {
            Ok(given) => Ok(given),
            Err(fault) => {
                self.last = Some(fault);
                Err(self.settings.raise())
            }
        }
    }

    fn back_settings(&mut self, source: ReaderSource<File>) {
        self.settings.gather(source.faults());
    }

    fn store(&mut self, name: &str) -> Result<FileDisk, Failed>
        ensures whole { IfOk result (λ disk. disk ≡ 0) }
        ensures done { OnOk result (self.new ≡ self.old) }
        ensures why { OnErr result (IfSome self.new.last IsOfStore × (self.new ≡ record self.old { stores = self.new.stores; last = self.new.last })) }
        ensures cause { HasCause self.old.stores self.new.stores result }
    {
        match open_store(&self.rt, name) {
            Ok(given) => Ok(given),
            Err(fault) => {
                self.last = Some(fault);
                Err(self.stores.raise())
            }
        }
    }

    fn existing_store(&mut self, name: &str) -> Result<Option<FileDisk>, Failed>
        ensures whole { IfOk result (λ found. IfSome found (λ disk. disk ≡ 0)) }
        ensures done { OnOk result (self.new ≡ self.old) }
        ensures why { OnErr result (IfSome self.new.last IsOfStore × (self.new ≡ record self.old { stores = self.new.stores; last = self.new.last })) }
        ensures cause { HasCause self.old.stores self.new.stores result }
    {
        match open_existing(&self.rt, name) {
            Ok(found) => Ok(found),
            Err(fault) => {
                self.last = Some(fault);
                Err(self.stores.raise())
            }
        }
    }

    fn put_back(&mut self, _name: &str, disk: FileDisk) {
        self.stores.gather(disk.faults());
    }

    fn door(&mut self, place: &Place) -> Result<TcpDoor<R>, Failed>
        ensures door { IfOk result (λ door. door ≡ record { place = Some (pair_of place.now); faults = 0 }) }
        ensures done { OnOk result (self.new ≡ self.old) }
        ensures why { OnErr result (IfSome self.new.last IsOfDoor × (self.new ≡ record self.old { network = self.new.network; last = self.new.last })) }
        ensures cause { HasCause self.old.network self.new.network result }
    {
        match open_door(self.alloc, self.rt, place, &self.notes) {
            Ok(given) => Ok(given),
            Err(fault) => {
                self.last = Some(fault);
                Err(self.network.raise())
            }
        }
    }

    fn note(&mut self, line: &str) {
        self.notes.tell(self.alloc, &self.rt, None, line);
    }

    fn side(&mut self) -> TcpSide<R> {
        TcpSide::new(self.alloc, self.rt, self.notes.shared(), None)
    }

    fn back_door(&mut self, door: TcpDoor<R>) {
        self.network.gather(door.faults());
    }

    fn back_side(&mut self, side: TcpSide<R>) {
        self.network.gather(side.faults());
    }
}

// A door at this place. A place that is in use is asked for again, since the process that has it may be about to end.
fn open_door<R: Net<Listener = TcpListener, Stream = TcpStream> + Clock + Copy>(
    alloc: Global,
    rt: R,
    place: &Place,
    notes: &Notes,
) -> Result<TcpDoor<R>, OutsideFault>
    ensures door { IfOk result (λ door. door ≡ record { place = Some (pair_of place.now); faults = 0 }) }
    ensures why { IfErr result IsOfDoor }
{
    for _ in 0..DOOR_TRIES {
        match TcpDoor::open(alloc, rt, place, notes.shared()) {
            Ok(door) => return Ok(door),
            Err(OutsideFault::PlaceInUse) => rt.sleep(Duration::from_millis(DOOR_MILLISECONDS)),
            Err(fault) => return Err(fault),
        }
    }
    TcpDoor::open(alloc, rt, place, notes.shared())
}

// The settings in the file at this path.
fn open_settings<R: Files<File = File>>(
    rt: &R,
    path: &str,
) -> Result<ReaderSource<File>, OutsideFault>
    ensures whole { IfOk result (λ source. source.faults ≡ 0) }
    ensures why { IfErr result (λ fault. fault ≡ OutsideFault.Settings) }
{
    match File::open(rt, path) {
        Ok(file) => Ok(ReaderSource::new(file)),
        Err(_) => Err(OutsideFault::Settings),
    }
}

// The store in the file at this path, which is made where it isn't there.
fn open_store<R: Files<File = File>>(rt: &R, path: &str) -> Result<FileDisk, OutsideFault>
    ensures whole { IfOk result (λ disk. disk ≡ 0) }
    ensures why { IfErr result IsOfStore }
{
    match FileDisk::open(rt, path) {
        Ok(disk) => Ok(disk),
        Err(fault) => Err(unopened(fault)),
    }
}

// The store in the file at this path, where there is one.
fn open_existing<R: Files<File = File>>(
    rt: &R,
    path: &str,
) -> Result<Option<FileDisk>, OutsideFault>
    ensures whole { IfOk result (λ found. IfSome found (λ disk. disk ≡ 0)) }
    ensures why { IfErr result IsOfStore }
{
    match FileDisk::existing(rt, path) {
        Ok(found) => Ok(found),
        Err(fault) => Err(unopened(fault)),
    }
}

// Why a store isn't had whose file wasn't opened.
fn unopened(fault: OpenFault) -> OutsideFault
    ensures { IsOfStore result }
{
    match fault {
        OpenFault::Failed => OutsideFault::Store,
        OpenFault::InUse => OutsideFault::StoreInUse,
    }
}
