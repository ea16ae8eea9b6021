//! A run from the settings to the end.

ghost use Rattle.std.specs.Prelude.{◌≡◌, ◌≢◌, ◌<◌, ℕ, List};
ghost use Rattle.sig_calls.specs.Proper.{IsProperRules};
ghost use Rattle.sig_init.specs.Files.{KeepsBut, StaysTold, file_a, file_b};
ghost use Rattle.sig_opening.specs.Files.{LackOne};
ghost use Rattle.sig_opening.specs.Serving.{UnlessThereAt, UnlessThereIn, around, at_door};
ghost use Rattle.sig_opening.specs.Stays.{KeepsOtherSettings};
ghost use Rattle.sig_outside.specs.Causes.{Rose};
ghost use Rattle.sig_serve.specs.Ends.{AreRefused, IsDamaged};
ghost use Rattle.sig_serve.specs.Serving.{Serves, ServesAt, ServesBy, UnlessThereBy};

use crate::ServeEnd;
use crate::noting::run_watches;
use crate::settings::settings_from;
use crate::watches::Served;
use sig_init::{FileNames, file_names};
use sig_links::Outside;
use sig_opening::{give_back, open};
use sig_txend::Transmitter;
use sig_txsettings::TxSettings;
use std::alloc::Global;
use std::sync::Wait;
use std::thread::Threads;

/// Serves a transmitter: reads the settings of this name, opens the door at the settings' listening
/// place, loads the store of this name, and runs so many watches, or fewer where a watch reports that
/// the door is shut, where the door or the store fails, or where memory runs out. It may wait for the
/// door and the links.
///
/// The settings are read first, then the door is opened, then the store, whose files have to be there.
/// So a second server at the same place loads nothing, and links that come while a large store is
/// loaded can wait at the door. What was opened is given back before the end, the settings as soon as
/// they are read, and the door last.
pub fn serve<R: Threads + Wait + Sync, X: Outside>(
    alloc: Global,
    rt: &R,
    settings: &str,
    store: &str,
    watches: u64,
    outside: &mut X,
) -> ServeEnd
    // The causes of the ends.
    ensures settings_failed { result ≡ ServeEnd.SettingsFailed → Rose (X.settings_faults outside.old) (X.settings_faults outside.new) }
    ensures refused { (member : List ℕ) → result ≡ ServeEnd.Refused member → AreRefused (X.settings_of outside.old settings.now) member }
    ensures no_store { result ≡ ServeEnd.NoStore → LackOne (X.there outside.old (file_a store.now)) (X.there outside.old (file_b store.now)) }
    ensures store_failed { result ≡ ServeEnd.StoreFailed → Rose (X.store_faults outside.old) (X.store_faults outside.new) }
    ensures damaged { (file at : ℕ) → result ≡ ServeEnd.Damaged file at → IsDamaged (X.held outside.old (file_a store.now)) (X.held outside.old (file_b store.now)) file at }
    ensures network_failed { result ≡ ServeEnd.NetworkFailed → Rose (X.network_faults outside.old) (X.network_faults outside.new) }

    // No door, or a door and no watch, or the watches from the store that was opened to the one that is put back.
    ensures serves { ServesBy (X.settings_of outside.old settings.now) result watches
        (around X.held X.doors X.doors_back (file_a store.now) (file_b store.now) outside.old)
        (around X.held X.doors X.doors_back (file_a store.now) (file_b store.now) outside.new) }

    // No file is made. Where one of the store isn't there, no watch begins.
    ensures there { X.there outside.new ≡ X.there outside.old }
    ensures missing { UnlessThereBy (X.settings_of outside.old settings.now)
        (X.there outside.old (file_a store.now)) (X.there outside.old (file_b store.now)) result
        (around X.held X.doors X.doors_back (file_a store.now) (file_b store.now) outside.old)
        (around X.held X.doors X.doors_back (file_a store.now) (file_b store.now) outside.new) }

    // What was opened is given back: a store that was told is told again.
    ensures back { StaysTold (X.held outside.old) (X.held outside.new) (file_a store.now) × StaysTold (X.held outside.old) (X.held outside.new) (file_b store.now) }
    ensures others { KeepsBut (file_a store.now) (file_b store.now) (X.held outside.old) (X.held outside.new) }
    ensures settings { KeepsOtherSettings settings.now (X.settings_of outside.old) (X.settings_of outside.new) }
    ensures sides { (X.sides outside.new ≡ X.sides outside.old) × (X.sides_out outside.new ≡ X.sides_out outside.old) × (X.sides_back outside.new ≡ X.sides_back outside.old) }
{
    let said = match settings_from(alloc, settings, outside) {
        Ok(said) => said,
        Err(cause) => return ServeEnd::of_unread(cause),
    };
    match file_names(alloc, store) {
        Ok(names) => serve_store(alloc, rt, said, &names, watches, outside),
        Err(_) => ServeEnd::Memory,
    }
}

// Serves the store of these files by these settings, at a door of their place, which is given back.
fn serve_store<R: Threads + Wait + Sync, X: Outside>(
    alloc: Global,
    rt: &R,
    said: TxSettings,
    names: &FileNames,
    watches: u64,
    outside: &mut X,
) -> ServeEnd
    requires proper { IsProperRules said.rules }
    requires apart { names.now.a ≢ names.now.b }
    ensures settings_failed { result ≢ ServeEnd.SettingsFailed }
    ensures refused { (member : List ℕ) → result ≢ ServeEnd.Refused member }
    ensures no_store { result ≡ ServeEnd.NoStore → LackOne (X.there outside.old names.now.a) (X.there outside.old names.now.b) }
    ensures store_failed { result ≡ ServeEnd.StoreFailed → Rose (X.store_faults outside.old) (X.store_faults outside.new) }
    ensures damaged { (file at : ℕ) → result ≡ ServeEnd.Damaged file at → IsDamaged (X.held outside.old names.now.a) (X.held outside.old names.now.b) file at }
    ensures network_failed { result ≡ ServeEnd.NetworkFailed → Rose (X.network_faults outside.old) (X.network_faults outside.new) }
    ensures serves { Serves said result watches
        (around X.held X.doors X.doors_back names.now.a names.now.b outside.old)
        (around X.held X.doors X.doors_back names.now.a names.now.b outside.new) }
    ensures there { X.there outside.new ≡ X.there outside.old }
    ensures missing { UnlessThereIn said.listen
        (X.there outside.old names.now.a) (X.there outside.old names.now.b) result
        (around X.held X.doors X.doors_back names.now.a names.now.b outside.old)
        (around X.held X.doors X.doors_back names.now.a names.now.b outside.new) }
    ensures back { StaysTold (X.held outside.old) (X.held outside.new) names.now.a × StaysTold (X.held outside.old) (X.held outside.new) names.now.b }
    ensures others { KeepsBut names.now.a names.now.b (X.held outside.old) (X.held outside.new) }
    ensures settings { X.settings_of outside.new ≡ X.settings_of outside.old }
    ensures sides { (X.sides outside.new ≡ X.sides outside.old) × (X.sides_out outside.new ≡ X.sides_out outside.old) × (X.sides_back outside.new ≡ X.sides_back outside.old) }
{
    match outside.door(&said.listen) {
        Ok(door) => {
            let mut door = door;
            let end = serve_at(alloc, rt, said, names, watches, &mut door, outside);
            outside.back_door(door);
            end
        }
        Err(_) => ServeEnd::NetworkFailed,
    }
}

// Serves the store of these files by these settings, at this door.
fn serve_at<R: Threads + Wait + Sync, X: Outside>(
    alloc: Global,
    rt: &R,
    said: TxSettings,
    names: &FileNames,
    watches: u64,
    door: &mut X::A,
    outside: &mut X,
) -> ServeEnd
    requires proper { IsProperRules said.rules }
    requires apart { names.now.a ≢ names.now.b }
    ensures no_store { result ≡ ServeEnd.NoStore
        → LackOne (X.there outside.old names.now.a) (X.there outside.old names.now.b) }
    ensures store_failed { result ≡ ServeEnd.StoreFailed
        → Rose (X.store_faults outside.old) (X.store_faults outside.new) }
    ensures damaged { (file at : ℕ) → result ≡ ServeEnd.Damaged file at
        → IsDamaged (X.held outside.old names.now.a) (X.held outside.old names.now.b) file at }
    ensures network_failed { result ≡ ServeEnd.NetworkFailed → 0 < (X.A.view door.new).faults }
    ensures serves { ServesAt said.rules result watches
        (at_door X.held names.now.a names.now.b outside.old (X.A.view door.old))
        (at_door X.held names.now.a names.now.b outside.new (X.A.view door.new)) }
    ensures there { X.there outside.new ≡ X.there outside.old }
    ensures missing { UnlessThereAt
        (X.there outside.old names.now.a) (X.there outside.old names.now.b) result
        (at_door X.held names.now.a names.now.b outside.old (X.A.view door.old))
        (at_door X.held names.now.a names.now.b outside.new (X.A.view door.new)) }
    ensures back { StaysTold (X.held outside.old) (X.held outside.new) names.now.a
        × StaysTold (X.held outside.old) (X.held outside.new) names.now.b }
    ensures others { KeepsBut names.now.a names.now.b (X.held outside.old) (X.held outside.new) }
    ensures settings { X.settings_of outside.new ≡ X.settings_of outside.old }
    ensures doors { (X.doors outside.new ≡ X.doors outside.old)
        × (X.doors_out outside.new ≡ X.doors_out outside.old)
        × (X.doors_back outside.new ≡ X.doors_back outside.old) }
    ensures sides { (X.sides outside.new ≡ X.sides outside.old)
        × (X.sides_out outside.new ≡ X.sides_out outside.old)
        × (X.sides_back outside.new ≡ X.sides_back outside.old) }
    ensures network { X.network_faults outside.new ≡ X.network_faults outside.old }
{
    let TxSettings { rules, listen } = said;
    match open::<Transmitter<X::D>, X>(alloc, rules, names, outside) {
        Ok(node) => {
            let Served { node, end } = run_watches(alloc, rt, node, &listen, watches, door);
            give_back::<Transmitter<X::D>, X>(node, names, outside);
            end
        }
        Err(cause) => ServeEnd::of_unopened(cause),
    }
}
