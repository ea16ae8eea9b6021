//! The two files of a store by their names: they are opened, and given back.

ghost use Rattle.std.specs.Prelude.{◌≡◌, ◌≢◌, ◌⊎◌, ◌≤◌, ◌<◌, IfErr, IfOk, IsTrue, OnErr, OnOk};
ghost use Rattle.sig_init.specs.Files.{KeepsBut};
ghost use Rattle.sig_links.specs.Told.{KeepsOthers, stored};
ghost use Rattle.sig_outside.specs.Causes.{Rose};
ghost use Rattle.sig_opening.specs.Files.{AreThere, HaltsFiles, IsMissing, IsThere, IsToldBy, LackOne};
ghost use Rattle.sig_opening.specs.Stays.{StaySame};

use crate::Unopened;
use sig_init::FileNames;
use sig_json::Text;
use sig_links::Outside;

/// Opens the two files of a store, which are there. `Missing` comes only where one of them isn't, as far as the outside tells,
/// and `Failed` only where it counted a fault of the stores; what was opened is then given back. No file is made.
pub fn files_of<X: Outside>(names: &FileNames, outside: &mut X) -> Result<(X::D, X::D), Unopened>
    requires { names.now.a ≢ names.now.b }
    ensures told { IfOk result (λ files. IsToldBy X.D.told X.D.seen (X.held outside.old names.now.a) files.0 × IsToldBy X.D.told X.D.seen (X.held outside.old names.now.b) files.1) }
    ensures whole { IfOk result (λ files. (X.D.faults files.0 ≡ 0) × (X.D.faults files.1 ≡ 0)) }
    ensures lent { OnOk result (IsTrue (X.lent outside.new names.now.a) × IsTrue (X.lent outside.new names.now.b)) }
    ensures found { OnOk result (AreThere (X.there outside.old names.now.a) (X.there outside.old names.now.b)) }
    ensures steady { OnOk result (X.store_faults outside.new ≡ X.store_faults outside.old) }
    ensures halts { IfErr result (λ cause. HaltsFiles cause (LackOne (X.there outside.old names.now.a) (X.there outside.old names.now.b)) (X.store_faults outside.old) (X.store_faults outside.new)) }
    ensures later { X.store_faults outside.old ≤ X.store_faults outside.new }
    ensures back { OnErr result (StaySame names.now.a names.now.b (X.held outside.old) (X.held outside.new)) }
    ensures others { KeepsBut names.now.a names.now.b (X.held outside.old) (X.held outside.new) }
    ensures there { X.there outside.new ≡ X.there outside.old }
    ensures settings { (X.settings_of outside.new ≡ X.settings_of outside.old) × (X.settings_faults outside.new ≡ X.settings_faults outside.old) }
    ensures doors { (X.doors outside.new ≡ X.doors outside.old) × (X.doors_out outside.new ≡ X.doors_out outside.old) × (X.doors_back outside.new ≡ X.doors_back outside.old) }
    ensures sides { (X.sides outside.new ≡ X.sides outside.old) × (X.sides_out outside.new ≡ X.sides_out outside.old) × (X.sides_back outside.new ≡ X.sides_back outside.old) }
    ensures network { X.network_faults outside.new ≡ X.network_faults outside.old }
{
    let a = file_of(&names.a, outside)?;
    match file_of(&names.b, outside) {
        Ok(b) => Ok((a, b)),
        Err(cause) => {
            outside.put_back(names.a.as_str(), a);
            Err(cause)
        }
    }
}

// Opens a file of a store, which is there.
fn file_of<X: Outside>(name: &Text, outside: &mut X) -> Result<X::D, Unopened>
    ensures told { IfOk result (λ file. IsToldBy X.D.told X.D.seen (X.held outside.old name.now) file) }
    ensures whole { IfOk result (λ file. X.D.faults file ≡ 0) }
    ensures lent { OnOk result (IsTrue (X.lent outside.new name.now)) }
    ensures found { OnOk result (IsThere (X.there outside.old name.now)) }
    ensures steady { OnOk result (X.store_faults outside.new ≡ X.store_faults outside.old) }
    ensures halts { IfErr result (λ cause. HaltsFiles cause (IsMissing (X.there outside.old name.now)) (X.store_faults outside.old) (X.store_faults outside.new)) }
    ensures later { X.store_faults outside.old ≤ X.store_faults outside.new }
    ensures none { OnErr result ((X.held outside.new ≡ X.held outside.old) × (X.lent outside.new ≡ X.lent outside.old)) }
    ensures others { KeepsOthers name.now (X.held outside.old) (X.held outside.new) × KeepsOthers name.now (X.lent outside.old) (X.lent outside.new) }
    ensures there { X.there outside.new ≡ X.there outside.old }
    ensures settings { (X.settings_of outside.new ≡ X.settings_of outside.old) × (X.settings_faults outside.new ≡ X.settings_faults outside.old) }
    ensures doors { (X.doors outside.new ≡ X.doors outside.old) × (X.doors_out outside.new ≡ X.doors_out outside.old) × (X.doors_back outside.new ≡ X.doors_back outside.old) }
    ensures sides { (X.sides outside.new ≡ X.sides outside.old) × (X.sides_out outside.new ≡ X.sides_out outside.old) × (X.sides_back outside.new ≡ X.sides_back outside.old) }
    ensures network { X.network_faults outside.new ≡ X.network_faults outside.old }
{
    match outside.existing_store(name.as_str()) {
        Ok(Some(file)) => Ok(file),
        Ok(None) => Err(Unopened::Missing),
        Err(_) => Err(Unopened::Failed),
    }
}

/// Gives the two files of a store back.
pub fn put_files<X: Outside>(a: X::D, b: X::D, names: &FileNames, outside: &mut X)
    requires apart { names.now.a ≢ names.now.b }
    requires lent { IsTrue (X.lent outside.old names.now.a) × IsTrue (X.lent outside.old names.now.b) }
    ensures a { X.held outside.new names.now.a ≡ stored (X.D.told a) (X.D.seen a) }
    ensures b { X.held outside.new names.now.b ≡ stored (X.D.told b) (X.D.seen b) }
    ensures counted { (0 < X.D.faults a) ⊎ (0 < X.D.faults b) → Rose (X.store_faults outside.old) (X.store_faults outside.new) }
    ensures later { X.store_faults outside.old ≤ X.store_faults outside.new }
    ensures others { KeepsBut names.now.a names.now.b (X.held outside.old) (X.held outside.new) }
    ensures there { X.there outside.new ≡ X.there outside.old }
    ensures settings { (X.settings_of outside.new ≡ X.settings_of outside.old) × (X.settings_faults outside.new ≡ X.settings_faults outside.old) }
    ensures doors { (X.doors outside.new ≡ X.doors outside.old) × (X.doors_out outside.new ≡ X.doors_out outside.old) × (X.doors_back outside.new ≡ X.doors_back outside.old) }
    ensures sides { (X.sides outside.new ≡ X.sides outside.old) × (X.sides_out outside.new ≡ X.sides_out outside.old) × (X.sides_back outside.new ≡ X.sides_back outside.old) }
    ensures network { X.network_faults outside.new ≡ X.network_faults outside.old }
{
    outside.put_back(names.a.as_str(), a);
    outside.put_back(names.b.as_str(), b);
}
