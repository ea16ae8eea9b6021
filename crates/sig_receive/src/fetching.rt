//! A fetch from the settings to the end.

ghost use Rattle.std.specs.Prelude.{◌≡◌, ◌≢◌, ℕ, List, None, true};
ghost use Rattle.sig_fetch.specs.Asks.{lacks_gateway};
ghost use Rattle.sig_init.specs.Files.{KeepsBut, StaysTold, file_a, file_b};
ghost use Rattle.sig_opening.specs.Ends.{BreaksBy};
ghost use Rattle.sig_opening.specs.Files.{LackOne};
ghost use Rattle.sig_opening.specs.Stays.{KeepsOtherSettings};
ghost use Rattle.sig_outside.specs.Causes.{Rose};
ghost use Rattle.sig_receive.specs.Ends.{IsDamaged};
ghost use Rattle.sig_receive.specs.Fetching.{CountsNetwork, Fetches, FetchesBy, MakesRounds, UnlessThere, fails_by};
ghost use Rattle.sig_receive.specs.Peers.{FetchRefused};
ghost use Rattle.sig_receive.specs.Sides.{beside, sides_of};

use crate::FetchEnd;
use crate::peer::peer_of;
use crate::settings::settings_from;
use sig_fetch::{FetchFault, Fetched};
use sig_init::{FileNames, file_names};
use sig_links::Outside;
use sig_opening::{give_back, open};
use sig_outside::Disk;
use sig_rxend::Receiver;
use sig_rxnode::{Peer, RxNode};
use sig_rxsettings::RxSettings;
use std::alloc::Global;

// A node after its rounds, and what they came to.
struct Rounded<D: Disk> {
    node: RxNode<D>,
    fetched: Result<Fetched, FetchFault>,
}

/// Fetches for a receiver: reads the settings of this name, loads the store of this name, and makes so many rounds at most of
/// the transmitter that the settings name, over a side of the outside (RFC 8936, sections 2.4 and 2.5).
///
/// The settings are read first, then the store is opened, whose files have to be there, then the side is taken; what was opened
/// is given back before the end, the settings as soon as they are read. After any fault of the rounds what was taken before it
/// stays.
pub fn fetch<X: Outside>(
    alloc: Global,
    settings: &str,
    store: &str,
    rounds: u64,
    outside: &mut X,
) -> FetchEnd
    // The causes of the ends.
    ensures settings_failed { result ≡ FetchEnd.SettingsFailed → Rose (X.settings_faults outside.old) (X.settings_faults outside.new) }
    ensures refused { (member : List ℕ) → result ≡ FetchEnd.Refused member → FetchRefused (X.settings_of outside.old settings.now) member }
    ensures no_store { result ≡ FetchEnd.NoStore → LackOne (X.there outside.old (file_a store.now)) (X.there outside.old (file_b store.now)) }
    ensures store_failed { result ≡ FetchEnd.StoreFailed → Rose (X.store_faults outside.old) (X.store_faults outside.new) }
    ensures damaged { (file at : ℕ) → result ≡ FetchEnd.Damaged file at → IsDamaged (X.held outside.old (file_a store.now)) (X.held outside.old (file_b store.now)) file at }
    ensures network_failed { result ≡ FetchEnd.NetworkFailed → Rose (X.network_faults outside.old) (X.network_faults outside.new) }

    // The rounds, from the store that was opened to the one that is put back.
    ensures fetches { FetchesBy (X.settings_of outside.old settings.now) result rounds
        (beside X.held X.sides X.sides_back (file_a store.now) (file_b store.now) outside.old)
        (beside X.held X.sides X.sides_back (file_a store.now) (file_b store.now) outside.new) }

    // No file is made. Where one of the store isn't there, no round begins.
    ensures there { X.there outside.new ≡ X.there outside.old }
    ensures missing { UnlessThere (X.there outside.old (file_a store.now)) (X.there outside.old (file_b store.now)) result
        (beside X.held X.sides X.sides_back (file_a store.now) (file_b store.now) outside.old)
        (beside X.held X.sides X.sides_back (file_a store.now) (file_b store.now) outside.new) }

    // What was opened is given back: a store that was told is told again.
    ensures back { StaysTold (X.held outside.old) (X.held outside.new) (file_a store.now) × StaysTold (X.held outside.old) (X.held outside.new) (file_b store.now) }
    ensures others { KeepsBut (file_a store.now) (file_b store.now) (X.held outside.old) (X.held outside.new) }
    ensures settings { KeepsOtherSettings settings.now (X.settings_of outside.old) (X.settings_of outside.new) }
    ensures doors { (X.doors outside.new ≡ X.doors outside.old) × (X.doors_out outside.new ≡ X.doors_out outside.old) × (X.doors_back outside.new ≡ X.doors_back outside.old) }
{
    let said = match settings_from(alloc, settings, outside) {
        Ok(said) => said,
        Err(cause) => return FetchEnd::of_unread(cause),
    };
    match peer_of(alloc, &said.rules) {
        Ok(peer) => match file_names(alloc, store) {
            Ok(names) => fetch_store(alloc, said, &peer, &names, rounds, outside),
            Err(_) => FetchEnd::Memory,
        },
        Err(cause) => FetchEnd::of_unread(cause),
    }
}

// Fetches into the store of these files, by these settings and of the peer that they name.
fn fetch_store<X: Outside>(
    alloc: Global,
    said: RxSettings,
    peer: &Peer,
    names: &FileNames,
    rounds: u64,
    outside: &mut X,
) -> FetchEnd
    requires reached { lacks_gateway peer.now ≢ true }
    requires apart { names.now.a ≢ names.now.b }
    ensures settings_failed { result ≢ FetchEnd.SettingsFailed }
    ensures refused { (member : List ℕ) → result ≢ FetchEnd.Refused member }
    ensures no_store { result ≡ FetchEnd.NoStore → LackOne (X.there outside.old names.now.a) (X.there outside.old names.now.b) }
    ensures store_failed { result ≡ FetchEnd.StoreFailed → Rose (X.store_faults outside.old) (X.store_faults outside.new) }
    ensures damaged { (file at : ℕ) → result ≡ FetchEnd.Damaged file at → IsDamaged (X.held outside.old names.now.a) (X.held outside.old names.now.b) file at }
    ensures network_failed { result ≡ FetchEnd.NetworkFailed → Rose (X.network_faults outside.old) (X.network_faults outside.new) }
    ensures fetches { Fetches (record { said = said; peer = peer.now }) result rounds
        (beside X.held X.sides X.sides_back names.now.a names.now.b outside.old)
        (beside X.held X.sides X.sides_back names.now.a names.now.b outside.new) }
    ensures there { X.there outside.new ≡ X.there outside.old }
    ensures missing { UnlessThere (X.there outside.old names.now.a) (X.there outside.old names.now.b) result
        (beside X.held X.sides X.sides_back names.now.a names.now.b outside.old)
        (beside X.held X.sides X.sides_back names.now.a names.now.b outside.new) }
    ensures back { StaysTold (X.held outside.old) (X.held outside.new) names.now.a × StaysTold (X.held outside.old) (X.held outside.new) names.now.b }
    ensures others { KeepsBut names.now.a names.now.b (X.held outside.old) (X.held outside.new) }
    ensures settings { X.settings_of outside.new ≡ X.settings_of outside.old }
    ensures doors { (X.doors outside.new ≡ X.doors outside.old) × (X.doors_out outside.new ≡ X.doors_out outside.old) × (X.doors_back outside.new ≡ X.doors_back outside.old) }
{
    let RxSettings { rules, listen: _ } = said;
    match open::<Receiver<X::D>, X>(alloc, rules, names, outside) {
        Ok(node) => {
            let Rounded { node, fetched } = make_rounds(alloc, node, peer, rounds, outside);
            give_back::<Receiver<X::D>, X>(node, names, outside);
            FetchEnd::of_rounds(fetched)
        }
        Err(cause) => FetchEnd::of_unopened(cause),
    }
}

// Makes the rounds over a side, which is given back.
fn make_rounds<X: Outside>(
    alloc: Global,
    node: RxNode<X::D>,
    peer: &Peer,
    rounds: u64,
    outside: &mut X,
) -> Rounded<X::D>
    requires whole { node.kept.store.broken_at ≡ None }
    requires reached { lacks_gateway peer.now ≢ true }
    ensures makes { MakesRounds X.D.told peer.now rounds (sides_of (X.sides outside.old) (X.sides_back outside.old)) (sides_of (X.sides outside.new) (X.sides_back outside.new)) node result.node result.fetched }
    ensures breaks { BreaksBy (fails_by result.fetched) result.node.kept.store.broken_at }
    ensures network { CountsNetwork result.fetched (X.network_faults outside.old) (X.network_faults outside.new) }
    ensures stores { (X.held outside.new ≡ X.held outside.old) × (X.lent outside.new ≡ X.lent outside.old) × (X.store_faults outside.new ≡ X.store_faults outside.old) × (X.there outside.new ≡ X.there outside.old) }
    ensures settings { X.settings_of outside.new ≡ X.settings_of outside.old }
    ensures doors { (X.doors outside.new ≡ X.doors outside.old) × (X.doors_out outside.new ≡ X.doors_out outside.old) × (X.doors_back outside.new ≡ X.doors_back outside.old) }
{
    let mut node = node;
    let mut side = outside.side();
    let fetched = sig_fetch::fetch(alloc, &mut node, &mut side, peer, rounds);
    outside.back_side(side);
    Rounded { node, fetched }
}
