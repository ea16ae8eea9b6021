ghost use Rattle.std.specs.Prelude.{◌≡◌, ◌⊎◌, ◌≤◌, ◌+◌, ℕ, List, length, false, IsTrue, IfOk, IfErr, MatchResult};
ghost use Rattle.sig_outside.specs.Causes.{Rose};
ghost use Rattle.sig_journal.specs.declared.fault.LoadFault.TheVariants.{Store};
ghost use Rattle.sig_outside.specs.Disk.{Only};
ghost use Rattle.sig_journal.specs.Journal.{store_with};
ghost use Rattle.sig_journal.specs.Layout.{places_of};
ghost use Rattle.sig_journal.specs.Loaded.{HasPlaces, IsOf, found_view};
ghost use Rattle.sig_journal.specs.OnlyRead.{OnlyRead};
ghost use Rattle.sig_journal.specs.Opened.{LoadsAs, Opens};
ghost use Rattle.sig_journal.specs.Store.{file_number, pick, tells};

use crate::loading::{Found, number_of, read_store};
use crate::{Journal, Kind, LoadFault};
use sig_json::{Bytes, Items};
use sig_outside::Disk;
use std::alloc::Global;

/// A store that was loaded: its journal, the number of the file in force (0 for the first), the store's name, the snapshot,
/// and the records after it with the places of their gates.
pub struct Loaded<D: Disk> {
    pub journal: Journal<D>,
    pub file: u8,
    pub store_id: [u8; 16],
    pub snapshot: Bytes,
    pub records: Items<Bytes>,
    pub places: Items<u64>,
}

/// A store that could not be loaded, and why.
pub struct LoadRefused<D> {
    pub fault: LoadFault,
    pub a: D,
    pub b: D,
}

/// Loads a store of two files.
///
/// Each file is synced and then read, and neither is written. `Damaged` comes exactly where the store is damaged, and
/// `Store` only where a disk has counted a fault.
pub fn load<D: Disk>(alloc: Global, a: D, b: D, kind: Kind) -> Result<Loaded<D>, LoadRefused<D>>
    // What is given is what the store tells, and the fault that is told is the one that the store has.
    ensures told { IsTrue (D.told a) → IsTrue (D.told b) → LoadsAs (tells kind (D.seen a) (D.seen b)) result }

    ensures opens { IfOk result (λ l. Opens D.told D.seen D.may_leave kind l) }
    ensures places { IfOk result (λ l. (l.places ≡ places_of (35 + length l.snapshot) l.records) × (l.file ≡ file_number l.journal.in_b)) }

    // A crash at any moment leaves what it might have left before.
    ensures reads { MatchResult result
        (λ l. OnlyRead D.told D.seen D.may_leave D.moment D.left_since D.faults a (pick l.journal.in_b l.journal.written l.journal.other)
        × OnlyRead D.told D.seen D.may_leave D.moment D.left_since D.faults b (pick l.journal.in_b l.journal.other l.journal.written))
        (λ r. OnlyRead D.told D.seen D.may_leave D.moment D.left_since D.faults a r.a × OnlyRead D.told D.seen D.may_leave D.moment D.left_since D.faults b r.b) }

    ensures store { IfErr result (λ r. r.fault ≡ Store → Rose (D.faults a) (D.faults r.a) ⊎ Rose (D.faults b) (D.faults r.b)) }
    ensures steady { IfOk result (λ l. (D.faults (pick l.journal.in_b l.journal.written l.journal.other) ≡ D.faults a) × (D.faults (pick l.journal.in_b l.journal.other l.journal.written) ≡ D.faults b)) }
    ensures steady_err { IfErr result (λ r. (r.fault ≡ Store → ⊥) → (D.faults r.a ≡ D.faults a) × (D.faults r.b ≡ D.faults b)) }
{
    let mut a = a;
    let mut b = b;
    match read_store(alloc, &mut a, &mut b, kind) {
        Err(fault) => Err(LoadRefused { fault, a, b }),
        Ok(found) => {
            if found.in_b {
                Ok(opened(b, a, kind, found))
            } else {
                Ok(opened(a, b, kind, found))
            }
        }
    }
}

// The open journal over a file in force and the other one.
fn opened<D: Disk>(written: D, other: D, kind: Kind, found: Found) -> Loaded<D>
    requires places { HasPlaces found }
    requires settled { Only (D.seen written) (D.may_leave written) × Only (D.seen other) (D.may_leave other) }
    requires told { IsTrue (D.told written) → IsTrue (D.told other) → store_with found.in_b kind (D.seen written) (D.seen other) ≡ Ok (found_view found) }
    requires knows { IsOf D.told D.seen kind found written other }
    ensures files { (result.journal.written ≡ written) × (result.journal.other ≡ other) × (result.journal.in_b ≡ found.in_b) }
    ensures content { (result.store_id ≡ found.content.store_id) × (result.snapshot ≡ found.content.snapshot) × (result.records ≡ found.content.records) × (result.places ≡ found.content.places) }
    ensures file { result.file ≡ file_number found.in_b }
    ensures opens { Opens D.told D.seen D.may_leave kind result }
{
    let content = found.content;
    let records = content.records.as_slice().len() as u64;
    Loaded {
        journal: Journal {
            written,
            other,
            in_b: found.in_b,
            kind,
            records,
            end: content.end,
            broken: false,
            generation: content.generation,
            other_open: found.other_open,
            store_id: content.store_id,
        },
        file: number_of(found.in_b),
        store_id: content.store_id,
        snapshot: content.snapshot,
        records: content.records,
        places: content.places,
    }
}
