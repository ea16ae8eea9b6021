//! A store by its name: its files are opened and loaded, and given back.

ghost use Rattle.std.specs.Prelude.{◌≡◌, ◌≢◌, ◌≤◌, IfErr, IfOk, IsTrue, List, OnErr, OnOk, Option, is_some, true, ℕ};
ghost use Rattle.sig_init.specs.Files.{KeepsBut};
ghost use Rattle.sig_links.specs.Told.{stored};
ghost use Rattle.sig_opening.specs.Files.{AreThere, HaltsOpening, HaltsStore, IsToldBy, LackOne};
ghost use Rattle.sig_opening.specs.Stays.{StaySame};
ghost use Rattle.sig_opening.specs.Stores.{FilesTell, Opens};
ghost use Rattle.sig_outside.specs.Causes.{Rose};

use crate::{Stored, Unopened, files_of, put_files};
use sig_init::FileNames;
use sig_journal::{LoadFault, LoadRefused};
use sig_links::Outside;
use std::alloc::Global;

/// Opens the two files of a store, which are there, and loads its node. Where it can't, what was opened is given back. No file
/// is made.
pub fn open<E: Stored, X: Outside<D = E::D>>(
    alloc: Global,
    rules: E::Rules,
    names: &FileNames,
    outside: &mut X,
) -> Result<E::Node, Unopened>
    requires proper { E.is_proper rules }
    requires apart { names.now.a ≢ names.now.b }
    ensures opens { IfOk result (λ node. Opens E.D.told E.D.seen E.means E.is_sound rules (X.held outside.old names.now.a) (X.held outside.old names.now.b) (E.held node)) }
    ensures lent { IfOk result (λ node. IsTrue (X.lent outside.new names.now.a) × IsTrue (X.lent outside.new names.now.b)) }
    ensures found { OnOk result (AreThere (X.there outside.old names.now.a) (X.there outside.old names.now.b)) }
    ensures halts { IfErr result (λ cause. HaltsOpening E.means cause (LackOne (X.there outside.old names.now.a) (X.there outside.old names.now.b)) (X.held outside.old names.now.a) (X.held outside.old names.now.b) (X.store_faults outside.old) (X.store_faults outside.new)) }
    ensures later { X.store_faults outside.old ≤ X.store_faults outside.new }
    ensures back { OnErr result (StaySame names.now.a names.now.b (X.held outside.old) (X.held outside.new)) }
    ensures others { KeepsBut names.now.a names.now.b (X.held outside.old) (X.held outside.new) }
    ensures there { X.there outside.new ≡ X.there outside.old }
    ensures settings { X.settings_of outside.new ≡ X.settings_of outside.old }
    ensures doors { (X.doors outside.new ≡ X.doors outside.old) × (X.doors_out outside.new ≡ X.doors_out outside.old) × (X.doors_back outside.new ≡ X.doors_back outside.old) }
    ensures sides { (X.sides outside.new ≡ X.sides outside.old) × (X.sides_out outside.new ≡ X.sides_out outside.old) × (X.sides_back outside.new ≡ X.sides_back outside.old) }
    ensures network { X.network_faults outside.new ≡ X.network_faults outside.old }
{
    match files_of(names, outside) {
        Ok((a, b)) => match load::<E, X>(alloc, rules, names, a, b, outside) {
            Ok(node) => Ok(node),
            Err(fault) => Err(Unopened::of_load(fault)),
        },
        Err(cause) => Err(cause),
    }
}

// Loads the node of a store whose files were opened, or gives them back.
fn load<E: Stored, X: Outside<D = E::D>>(
    alloc: Global,
    rules: E::Rules,
    names: &FileNames,
    a: X::D,
    b: X::D,
    outside: &mut X,
) -> Result<E::Node, LoadFault>
    requires proper { E.is_proper rules }
    requires apart { names.now.a ≢ names.now.b }
    requires lent { IsTrue (X.lent outside.old names.now.a) × IsTrue (X.lent outside.old names.now.b) }
    requires whole { (E.D.faults a ≡ 0) × (E.D.faults b ≡ 0) }
    ensures opens { IfOk result (λ node. (first second : Option (List ℕ)) → IsToldBy E.D.told E.D.seen first a → IsToldBy E.D.told E.D.seen second b → Opens E.D.told E.D.seen E.means E.is_sound rules first second (E.held node)) }
    ensures halts { IfErr result (λ fault. (first second : Option (List ℕ)) → IsToldBy E.D.told E.D.seen first a → IsToldBy E.D.told E.D.seen second b
        → HaltsStore E.means fault first second (X.store_faults outside.old) (X.store_faults outside.new)) }
    ensures later { X.store_faults outside.old ≤ X.store_faults outside.new }
    ensures back { OnErr result ((X.held outside.new names.now.a ≡ stored (E.D.told a) (E.D.seen a)) × (X.held outside.new names.now.b ≡ stored (E.D.told b) (E.D.seen b))) }
    ensures lends { OnOk result (X.lent outside.new ≡ X.lent outside.old) }
    ensures others { KeepsBut names.now.a names.now.b (X.held outside.old) (X.held outside.new) }
    ensures there { X.there outside.new ≡ X.there outside.old }
    ensures settings { X.settings_of outside.new ≡ X.settings_of outside.old }
    ensures doors { (X.doors outside.new ≡ X.doors outside.old) × (X.doors_out outside.new ≡ X.doors_out outside.old) × (X.doors_back outside.new ≡ X.doors_back outside.old) }
    ensures sides { (X.sides outside.new ≡ X.sides outside.old) × (X.sides_out outside.new ≡ X.sides_out outside.old) × (X.sides_back outside.new ≡ X.sides_back outside.old) }
    ensures network { X.network_faults outside.new ≡ X.network_faults outside.old }
{
    match E::load(alloc, a, b, rules) {
        Ok(node) => Ok(node),
        Err(refused) => {
            let LoadRefused { fault, a, b } = refused;
            put_files(a, b, names, outside);
            Err(fault)
        }
    }
}

/// Gives the two files of a store back.
pub fn give_back<E: Stored, X: Outside<D = E::D>>(node: E::Node, names: &FileNames, outside: &mut X)
    requires apart { names.now.a ≢ names.now.b }
    requires lent { IsTrue (X.lent outside.old names.now.a) × IsTrue (X.lent outside.old names.now.b) }
    ensures a { X.held outside.new names.now.a ≡ stored (E.D.told (E.held node).first) (E.D.seen (E.held node).first) }
    ensures b { X.held outside.new names.now.b ≡ stored (E.D.told (E.held node).second) (E.D.seen (E.held node).second) }
    ensures tells { FilesTell E.D.told E.D.seen E.means E.after (E.held node) }
    ensures counted { is_some (E.held node).broken_at ≡ true → Rose (X.store_faults outside.old) (X.store_faults outside.new) }
    ensures later { X.store_faults outside.old ≤ X.store_faults outside.new }
    ensures others { KeepsBut names.now.a names.now.b (X.held outside.old) (X.held outside.new) }
    ensures there { X.there outside.new ≡ X.there outside.old }
    ensures settings { X.settings_of outside.new ≡ X.settings_of outside.old }
    ensures doors { (X.doors outside.new ≡ X.doors outside.old) × (X.doors_out outside.new ≡ X.doors_out outside.old) × (X.doors_back outside.new ≡ X.doors_back outside.old) }
    ensures sides { (X.sides outside.new ≡ X.sides outside.old) × (X.sides_out outside.new ≡ X.sides_out outside.old) × (X.sides_back outside.new ≡ X.sides_back outside.old) }
    ensures network { X.network_faults outside.new ≡ X.network_faults outside.old }
{
    let (a, b) = E::into_disks(node);
    put_files(a, b, names, outside);
}
