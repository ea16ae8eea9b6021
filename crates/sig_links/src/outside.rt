ghost use Rattle.std.specs.Prelude.{◌≡◌, ℕ, List, Bool, IsTrue, Option, Some, IfNone, IfOk, IfSome, OnErr, OnOk, is_some, true};
ghost use Rattle.sig_outside.specs.Causes.{HasCause};
ghost use Rattle.sig_links.specs.Told.{Begins, Coming, DoorEnd, Gathers, HandsNext, KeepsOthers, KeepsTold, Lends, LendsSide, OpensNext, SideEnd, SidePlan, TakesBack, door_end, side_end, stored};

use crate::{Door, Side};
use sig_outside::{Disk, Failed, Place, Source};

/// Where a program gets its settings, its stores, its doors and its sides.
///
/// It has three counts of faults, of the settings, of the stores and of the network (each stands at 2^64 - 1). What it hands
/// out has met no fault, also where it came back before; what comes back adds its faults to the count of its kind.
///
/// Further meanings, each where it is told: `settings_of` and `held` are the bytes of the settings and of the store with
/// a name; `doors` and `sides` are what will be handed out, in order, `doors_back` and `sides_back` what was given back, in
/// order. `lent` says which stores are out, and `doors_out` and `sides_out` count the doors and sides that are out, where
/// it is told what comes back. `there` says whether the store with a name has a file, in or out, where that is told.
pub trait Outside {
    type I: Source + Drop;

    type D: Disk + Send;

    type A: Door;

    ghost settings_of: { Self → List ℕ → Option (List ℕ) };

    ghost held: { Self → List ℕ → Option (List ℕ) };

    ghost lent: { Self → List ℕ → Bool };

    ghost there: { Self → List ℕ → Option Bool };

    ghost doors: { Self → Option (List (List Coming)) };

    ghost doors_out: { Self → ℕ };

    ghost doors_back: { Self → Option (List DoorEnd) };

    ghost sides: { Self → Option (List SidePlan) };

    ghost sides_out: { Self → ℕ };

    ghost sides_back: { Self → Option (List SideEnd) };

    ghost settings_faults: { Self → ℕ };

    ghost store_faults: { Self → ℕ };

    ghost network_faults: { Self → ℕ };

    /// The settings with this name. `Failed` raises the count of the settings by one.
    fn settings(&mut self, name: &str) -> Result<Self::I, Failed>
        ensures bytes { IfOk result (λ source. IfSome (settings_of self.old name.now) (λ bytes. Self.I.left source ≡ Some bytes)) }
        ensures whole { IfOk result (λ source. Self.I.faults source ≡ 0) }
        ensures others { KeepsOthers name.now (settings_of self.old) (settings_of self.new) }
        ensures none { OnErr result (settings_of self.new ≡ settings_of self.old) }
        ensures stores { (held self.new ≡ held self.old) × (lent self.new ≡ lent self.old) × (store_faults self.new ≡ store_faults self.old) × (there self.new ≡ there self.old) }
        ensures doors { (doors self.new ≡ doors self.old) × (doors_out self.new ≡ doors_out self.old) × (doors_back self.new ≡ doors_back self.old) }
        ensures sides { (sides self.new ≡ sides self.old) × (sides_out self.new ≡ sides_out self.old) × (sides_back self.new ≡ sides_back self.old) }
        ensures network { network_faults self.new ≡ network_faults self.old }
        ensures cause { HasCause (settings_faults self.old) (settings_faults self.new) result };

    /// Takes back settings, and counts their faults as those of the settings.
    fn back_settings(&mut self, source: Self::I)
        ensures settings { KeepsTold (settings_of self.old) (settings_of self.new) }
        ensures stores { (held self.new ≡ held self.old) × (lent self.new ≡ lent self.old) × (store_faults self.new ≡ store_faults self.old) × (there self.new ≡ there self.old) }
        ensures doors { (doors self.new ≡ doors self.old) × (doors_out self.new ≡ doors_out self.old) × (doors_back self.new ≡ doors_back self.old) }
        ensures sides { (sides self.new ≡ sides self.old) × (sides_out self.new ≡ sides_out self.old) × (sides_back self.new ≡ sides_back self.old) }
        ensures network { network_faults self.new ≡ network_faults self.old }
        ensures faults { Gathers (settings_faults self.old) (settings_faults self.new) (Self.I.faults source) };

    /// The store with this name: its file is opened, or made empty. `Failed` raises the count of the stores by one, and changes
    /// no store.
    fn store(&mut self, name: &str) -> Result<Self::D, Failed>
        ensures bytes { IfOk result (λ disk. IfSome (held self.old name.now) (λ bytes. IsTrue (Self.D.told disk) × (Self.D.seen disk ≡ bytes))) }
        ensures whole { IfOk result (λ disk. Self.D.faults disk ≡ 0) }
        ensures lent { IfOk result (λ disk. IsTrue (lent self.new name.now)) }
        ensures others { KeepsOthers name.now (held self.old) (held self.new) × KeepsOthers name.now (lent self.old) (lent self.new) }
        ensures there { OnOk result (IfSome (there self.old name.now) (λ is. there self.new name.now ≡ Some true)) × KeepsOthers name.now (there self.old) (there self.new) }
        ensures none { OnErr result ((held self.new ≡ held self.old) × (lent self.new ≡ lent self.old) × (there self.new ≡ there self.old)) }
        ensures settings { (settings_of self.new ≡ settings_of self.old) × (settings_faults self.new ≡ settings_faults self.old) }
        ensures doors { (doors self.new ≡ doors self.old) × (doors_out self.new ≡ doors_out self.old) × (doors_back self.new ≡ doors_back self.old) }
        ensures sides { (sides self.new ≡ sides self.old) × (sides_out self.new ≡ sides_out self.old) × (sides_back self.new ≡ sides_back self.old) }
        ensures network { network_faults self.new ≡ network_faults self.old }
        ensures cause { HasCause (store_faults self.old) (store_faults self.new) result };

    /// The store with this name, where its file is there; none where it isn't. No file is made. `Failed` raises the count of
    /// the stores by one, and changes no store.
    fn existing_store(&mut self, name: &str) -> Result<Option<Self::D>, Failed>
        ensures found { IfOk result (λ found. IfSome (there self.old name.now) (λ is. is_some found ≡ is)) }
        ensures unfound { IfOk result (λ found. IfNone found ((held self.new ≡ held self.old) × (lent self.new ≡ lent self.old))) }
        ensures there { there self.new ≡ there self.old }
        ensures bytes { IfOk result (λ found. IfSome found (λ disk. IfSome (held self.old name.now) (λ bytes. IsTrue (Self.D.told disk) × (Self.D.seen disk ≡ bytes)))) }
        ensures whole { IfOk result (λ found. IfSome found (λ disk. Self.D.faults disk ≡ 0)) }
        ensures lent { IfOk result (λ found. IfSome found (λ disk. IsTrue (lent self.new name.now))) }
        ensures others { KeepsOthers name.now (held self.old) (held self.new) × KeepsOthers name.now (lent self.old) (lent self.new) }
        ensures none { OnErr result ((held self.new ≡ held self.old) × (lent self.new ≡ lent self.old)) }
        ensures settings { (settings_of self.new ≡ settings_of self.old) × (settings_faults self.new ≡ settings_faults self.old) }
        ensures doors { (doors self.new ≡ doors self.old) × (doors_out self.new ≡ doors_out self.old) × (doors_back self.new ≡ doors_back self.old) }
        ensures sides { (sides self.new ≡ sides self.old) × (sides_out self.new ≡ sides_out self.old) × (sides_back self.new ≡ sides_back self.old) }
        ensures network { network_faults self.new ≡ network_faults self.old }
        ensures cause { HasCause (store_faults self.old) (store_faults self.new) result };

    /// Takes back the store with this name, and counts its faults as those of the stores. Where that store was out, `held`
    /// tells its bytes as the store does.
    fn put_back(&mut self, name: &str, disk: Self::D)
        ensures there { there self.new ≡ there self.old }
        ensures held { IsTrue (lent self.old name.now) → held self.new name.now ≡ stored (Self.D.told disk) (Self.D.seen disk) }
        ensures others { KeepsOthers name.now (held self.old) (held self.new) × KeepsOthers name.now (lent self.old) (lent self.new) }
        ensures settings { (settings_of self.new ≡ settings_of self.old) × (settings_faults self.new ≡ settings_faults self.old) }
        ensures doors { (doors self.new ≡ doors self.old) × (doors_out self.new ≡ doors_out self.old) × (doors_back self.new ≡ doors_back self.old) }
        ensures sides { (sides self.new ≡ sides self.old) × (sides_out self.new ≡ sides_out self.old) × (sides_back self.new ≡ sides_back self.old) }
        ensures network { network_faults self.new ≡ network_faults self.old }
        ensures faults { Gathers (store_faults self.old) (store_faults self.new) (Self.D.faults disk) };

    /// A door that listens at this place. `Failed` raises the count of the network by one, and takes none of the doors.
    fn door(&mut self, place: &Place) -> Result<Self::A, Failed>
        ensures place { IfOk result (λ door. (Self.A.view door).place ≡ Some (place.now.host, place.now.port)) }
        ensures next { IfOk result (λ door. OpensNext (doors self.old) (doors self.new) (Self.A.view door).coming) }
        ensures begins { IfOk result (λ door. Begins (doors_back self.old) (Self.A.view door).served) }
        ensures whole { IfOk result (λ door. (Self.A.view door).faults ≡ 0) }
        ensures lends { IfOk result (λ door. Lends (doors_back self.old) (doors_out self.old) (doors_out self.new)) }
        ensures none { OnErr result ((doors self.new ≡ doors self.old) × (doors_out self.new ≡ doors_out self.old)) }
        ensures back { doors_back self.new ≡ doors_back self.old }
        ensures settings { (settings_of self.new ≡ settings_of self.old) × (settings_faults self.new ≡ settings_faults self.old) }
        ensures stores { (held self.new ≡ held self.old) × (lent self.new ≡ lent self.old) × (store_faults self.new ≡ store_faults self.old) × (there self.new ≡ there self.old) }
        ensures sides { (sides self.new ≡ sides self.old) × (sides_out self.new ≡ sides_out self.old) × (sides_back self.new ≡ sides_back self.old) }
        ensures cause { HasCause (network_faults self.old) (network_faults self.new) result };

    /// Tells a line, which needs no end of line, to whoever runs the program. No contract says that it comes, and it changes
    /// nothing that is told.
    fn note(&mut self, line: &str)
        ensures settings { (settings_of self.new ≡ settings_of self.old) × (settings_faults self.new ≡ settings_faults self.old) }
        ensures stores { (held self.new ≡ held self.old) × (lent self.new ≡ lent self.old) × (store_faults self.new ≡ store_faults self.old) × (there self.new ≡ there self.old) }
        ensures doors { (doors self.new ≡ doors self.old) × (doors_out self.new ≡ doors_out self.old) × (doors_back self.new ≡ doors_back self.old) }
        ensures sides { (sides self.new ≡ sides self.old) × (sides_out self.new ≡ sides_out self.old) × (sides_back self.new ≡ sides_back self.old) }
        ensures network { network_faults self.new ≡ network_faults self.old };

    /// A side that dials and tells the time.
    fn side(&mut self) -> <Self::A as Door>::S
        ensures next { HandsNext (sides self.old) (sides self.new) (Self.A.S.view result).ahead (Self.A.S.view result).times }
        ensures begins { Begins (sides_back self.old) (Self.A.S.view result).sent }
        ensures whole { (Self.A.S.view result).faults ≡ 0 }
        ensures lends { LendsSide (sides self.old) (sides_back self.old) (sides_out self.old) (sides_out self.new) }
        ensures back { sides_back self.new ≡ sides_back self.old }
        ensures settings { (settings_of self.new ≡ settings_of self.old) × (settings_faults self.new ≡ settings_faults self.old) }
        ensures stores { (held self.new ≡ held self.old) × (lent self.new ≡ lent self.old) × (store_faults self.new ≡ store_faults self.old) × (there self.new ≡ there self.old) }
        ensures doors { (doors self.new ≡ doors self.old) × (doors_out self.new ≡ doors_out self.old) × (doors_back self.new ≡ doors_back self.old) }
        ensures network { network_faults self.new ≡ network_faults self.old };

    /// Takes back a door, and counts its faults as those of the network.
    fn back_door(&mut self, door: Self::A)
        ensures back { TakesBack (doors_back self.old) (doors_back self.new) (doors_out self.old) (doors_out self.new) (door_end (Self.A.view door).place (Self.A.view door).coming (Self.A.view door).served) }
        ensures settings { (settings_of self.new ≡ settings_of self.old) × (settings_faults self.new ≡ settings_faults self.old) }
        ensures stores { (held self.new ≡ held self.old) × (lent self.new ≡ lent self.old) × (store_faults self.new ≡ store_faults self.old) × (there self.new ≡ there self.old) }
        ensures doors { doors self.new ≡ doors self.old }
        ensures sides { (sides self.new ≡ sides self.old) × (sides_out self.new ≡ sides_out self.old) × (sides_back self.new ≡ sides_back self.old) }
        ensures faults { Gathers (network_faults self.old) (network_faults self.new) (Self.A.view door).faults };

    /// Takes back a side, and counts its faults as those of the network.
    fn back_side(&mut self, side: <Self::A as Door>::S)
        ensures back { TakesBack (sides_back self.old) (sides_back self.new) (sides_out self.old) (sides_out self.new) (side_end (Self.A.S.view side).ahead (Self.A.S.view side).times (Self.A.S.view side).sent) }
        ensures settings { (settings_of self.new ≡ settings_of self.old) × (settings_faults self.new ≡ settings_faults self.old) }
        ensures stores { (held self.new ≡ held self.old) × (lent self.new ≡ lent self.old) × (store_faults self.new ≡ store_faults self.old) × (there self.new ≡ there self.old) }
        ensures doors { (doors self.new ≡ doors self.old) × (doors_out self.new ≡ doors_out self.old) × (doors_back self.new ≡ doors_back self.old) }
        ensures sides { sides self.new ≡ sides self.old }
        ensures faults { Gathers (network_faults self.old) (network_faults self.new) (Self.A.S.view side).faults };
}
