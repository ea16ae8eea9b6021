//! An empty store is made over the files that the outside opens.

ghost use Rattle.std.specs.Prelude.{◌≡◌, ◌≢◌, ℕ, List, IsSome, IsTrue};
ghost use Rattle.sig_outside.specs.Causes.{Rose};
ghost use Rattle.sig_links.specs.Told.{stored};
ghost use Rattle.sig_init.specs.Ends as spec;
ghost use Rattle.sig_init.specs.Files.{KeepsBut, LeavesAsItWas, MakesStore, StaysTold, TellsEmpty, file_a, file_b};

use crate::InitEnd;
use crate::ending::end_of;
use crate::names::{FileNames, file_names};
use sig_journal::{Kind, make};
use sig_links::Outside;
use std::alloc::Global;

/// Makes an empty store of this kind, with this id, over the two files of this name; a file that isn't there is made.
///
/// `Done` comes only where both files were empty; what they hold then tells that kind and id, no snapshot and no record,
/// and is synced (`sig_journal::make`). `NotEmpty` has the size of the first file that isn't empty, and both stay as they
/// were. `Store` comes only where the count of the stores' faults rose, and `Memory` before any file is opened. Both files
/// are given back in every case, and no other store is touched.
pub fn init<X: Outside>(
    alloc: Global,
    outside: &mut X,
    kind: Kind,
    store: &str,
    store_id: [u8; 16],
) -> InitEnd
    ensures done { result ≡ InitEnd.Done
        → MakesStore kind store_id (X.held outside.old) (X.held outside.new) (file_a store.now) (file_b store.now) }
    ensures tells { result ≡ InitEnd.Done → TellsEmpty kind store_id (X.held outside.old) (X.held outside.new) (file_a store.now) (file_b store.now) }
    ensures not_empty { (size : ℕ) → result ≡ InitEnd.NotEmpty size
        → LeavesAsItWas size (X.held outside.old) (X.held outside.new) (file_a store.now) (file_b store.now) }
    ensures store { result ≡ InitEnd.Store → Rose (X.store_faults outside.old) (X.store_faults outside.new) }
    ensures steady { result ≢ InitEnd.Store → X.store_faults outside.new ≡ X.store_faults outside.old }
    ensures memory { result ≡ InitEnd.Memory → X.held outside.new ≡ X.held outside.old }

    // What was opened is given back: a store that was told is told again.
    ensures back { StaysTold (X.held outside.old) (X.held outside.new) (file_a store.now) × StaysTold (X.held outside.old) (X.held outside.new) (file_b store.now) }
    ensures others { KeepsBut (file_a store.now) (file_b store.now) (X.held outside.old) (X.held outside.new) }
    ensures settings { (X.settings_of outside.new ≡ X.settings_of outside.old) × (X.settings_faults outside.new ≡ X.settings_faults outside.old) }
    ensures doors { (X.doors outside.new ≡ X.doors outside.old) × (X.doors_out outside.new ≡ X.doors_out outside.old) × (X.doors_back outside.new ≡ X.doors_back outside.old) }
    ensures sides { (X.sides outside.new ≡ X.sides outside.old) × (X.sides_out outside.new ≡ X.sides_out outside.old) × (X.sides_back outside.new ≡ X.sides_back outside.old) }
    ensures network { X.network_faults outside.new ≡ X.network_faults outside.old }
{
    match file_names(alloc, store) {
        Ok(names) => init_files(outside, kind, store_id, &names),
        Err(_) => InitEnd::Memory,
    }
}

fn init_files<X: Outside>(
    outside: &mut X,
    kind: Kind,
    store_id: [u8; 16],
    names: &FileNames,
) -> InitEnd
    requires { names.now.a ≢ names.now.b }
    ensures done { result ≡ InitEnd.Done → MakesStore kind store_id (X.held outside.old) (X.held outside.new) names.now.a names.now.b }
    ensures tells { result ≡ InitEnd.Done → TellsEmpty kind store_id (X.held outside.old) (X.held outside.new) names.now.a names.now.b }
    ensures not_empty { (size : ℕ) → result ≡ InitEnd.NotEmpty size → LeavesAsItWas size (X.held outside.old) (X.held outside.new) names.now.a names.now.b }
    ensures store { result ≡ InitEnd.Store → Rose (X.store_faults outside.old) (X.store_faults outside.new) }
    ensures steady { result ≢ InitEnd.Store → X.store_faults outside.new ≡ X.store_faults outside.old }
    ensures memory { result ≢ InitEnd.Memory }
    ensures back { StaysTold (X.held outside.old) (X.held outside.new) names.now.a × StaysTold (X.held outside.old) (X.held outside.new) names.now.b }
    ensures others { KeepsBut names.now.a names.now.b (X.held outside.old) (X.held outside.new) }
    ensures settings { (X.settings_of outside.new ≡ X.settings_of outside.old) × (X.settings_faults outside.new ≡ X.settings_faults outside.old) }
    ensures doors { (X.doors outside.new ≡ X.doors outside.old) × (X.doors_out outside.new ≡ X.doors_out outside.old) × (X.doors_back outside.new ≡ X.doors_back outside.old) }
    ensures sides { (X.sides outside.new ≡ X.sides outside.old) × (X.sides_out outside.new ≡ X.sides_out outside.old) × (X.sides_back outside.new ≡ X.sides_back outside.old) }
    ensures network { X.network_faults outside.new ≡ X.network_faults outside.old }
{
    let a = match outside.store(names.a.as_str()) {
        Ok(a) => a,
        Err(_) => return InitEnd::Store,
    };
    match outside.store(names.b.as_str()) {
        Ok(b) => make_files(outside, kind, store_id, names, a, b),
        Err(_) => {
            outside.put_back(names.a.as_str(), a);
            InitEnd::Store
        }
    }
}

// Makes the store over its two files, and gives them back.
fn make_files<X: Outside>(
    outside: &mut X,
    kind: Kind,
    store_id: [u8; 16],
    names: &FileNames,
    mut a: X::D,
    mut b: X::D,
) -> InitEnd
    requires apart { names.now.a ≢ names.now.b }
    requires lent { IsTrue (X.lent outside.old names.now.a) × IsTrue (X.lent outside.old names.now.b) }
    requires whole { (X.D.faults a ≡ 0) × (X.D.faults b ≡ 0) }
    ensures done { result ≡ InitEnd.Done
        → spec.Made kind store_id (stored (X.D.told a) (X.D.seen a)) (stored (X.D.told b) (X.D.seen b)) (X.held outside.new names.now.a) (X.held outside.new names.now.b) }
    ensures tells { result ≡ InitEnd.Done
        → spec.Tells kind store_id (stored (X.D.told a) (X.D.seen a)) (stored (X.D.told b) (X.D.seen b)) (X.held outside.new names.now.a) (X.held outside.new names.now.b) }
    ensures not_empty { (size : ℕ) → result ≡ InitEnd.NotEmpty size
        → spec.Left size (stored (X.D.told a) (X.D.seen a)) (stored (X.D.told b) (X.D.seen b)) (X.held outside.new names.now.a) (X.held outside.new names.now.b) }
    ensures store { result ≡ InitEnd.Store → Rose (X.store_faults outside.old) (X.store_faults outside.new) }
    ensures steady { result ≢ InitEnd.Store → X.store_faults outside.new ≡ X.store_faults outside.old }
    ensures memory { result ≢ InitEnd.Memory }
    ensures back { (IsTrue (X.D.told a) → IsSome (X.held outside.new names.now.a)) × (IsTrue (X.D.told b) → IsSome (X.held outside.new names.now.b)) }
    ensures others { KeepsBut names.now.a names.now.b (X.held outside.old) (X.held outside.new) }
    ensures settings { (X.settings_of outside.new ≡ X.settings_of outside.old) × (X.settings_faults outside.new ≡ X.settings_faults outside.old) }
    ensures doors { (X.doors outside.new ≡ X.doors outside.old) × (X.doors_out outside.new ≡ X.doors_out outside.old) × (X.doors_back outside.new ≡ X.doors_back outside.old) }
    ensures sides { (X.sides outside.new ≡ X.sides outside.old) × (X.sides_out outside.new ≡ X.sides_out outside.old) × (X.sides_back outside.new ≡ X.sides_back outside.old) }
    ensures network { X.network_faults outside.new ≡ X.network_faults outside.old }
{
    let made = make(&mut a, &mut b, kind, store_id);
    outside.put_back(names.a.as_str(), a);
    outside.put_back(names.b.as_str(), b);
    end_of(made)
}
