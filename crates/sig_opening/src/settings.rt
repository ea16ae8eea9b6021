//! The bytes of settings by their name, as the outside hands them out.

ghost use Rattle.std.specs.Prelude.{◌≡◌, ◌+◌, IfErr, IfOk, IfSome, OnOk, take};
ghost use Rattle.sig_opening.specs.Reading.{HaltsReading};
ghost use Rattle.sig_opening.specs.Stays.{KeepsOtherSettings};

use crate::{ReadFault, whole_of};
use sig_json::limits::SETTINGS_BYTES;
use sig_links::Outside;
use std::alloc::Global;

/// All bytes of the settings with this name; of more than 1,048,576, so many and one more. Their source is given back.
///
/// `Failed` comes only where the settings couldn't be opened, or reading them failed, which the outside counts.
pub fn bytes_from<X: Outside>(
    alloc: Global,
    name: &str,
    outside: &mut X,
) -> Result<Vec<u8>, ReadFault>
    ensures bytes { IfOk result (λ bytes. IfSome (X.settings_of outside.old name.now) (λ all. bytes.items ≡ take (SETTINGS_BYTES + 1) all)) }
    ensures halts { IfErr result (λ fault. HaltsReading fault (X.settings_faults outside.old) (X.settings_faults outside.new)) }
    ensures steady { OnOk result (X.settings_faults outside.new ≡ X.settings_faults outside.old) }
    ensures others { KeepsOtherSettings name.now (X.settings_of outside.old) (X.settings_of outside.new) }
    ensures stores { (X.held outside.new ≡ X.held outside.old) × (X.lent outside.new ≡ X.lent outside.old) × (X.store_faults outside.new ≡ X.store_faults outside.old) × (X.there outside.new ≡ X.there outside.old) }
    ensures doors { (X.doors outside.new ≡ X.doors outside.old) × (X.doors_out outside.new ≡ X.doors_out outside.old) × (X.doors_back outside.new ≡ X.doors_back outside.old) }
    ensures sides { (X.sides outside.new ≡ X.sides outside.old) × (X.sides_out outside.new ≡ X.sides_out outside.old) × (X.sides_back outside.new ≡ X.sides_back outside.old) }
    ensures network { X.network_faults outside.new ≡ X.network_faults outside.old }
{
    match outside.settings(name) {
        Ok(source) => {
            let mut source = source;
            let read = whole_of(alloc, &mut source, SETTINGS_BYTES);
            outside.back_settings(source);
            read
        }
        Err(_) => Err(ReadFault::Failed),
    }
}
