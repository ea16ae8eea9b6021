//! The settings by their name, as the outside hands them out.

ghost use Rattle.std.specs.Prelude.{◌≡◌, IfErr, IfOk};
ghost use Rattle.sig_calls.specs.Proper.{IsProperRules};
ghost use Rattle.sig_opening.specs.Settings.{HaltsSettings};
ghost use Rattle.sig_opening.specs.Stays.{KeepsOtherSettings};
ghost use Rattle.sig_txsettings.specs.Settings.{tx_settings_of};
ghost use Rattle.sig_serve.specs.Ends.{Says};

use sig_links::Outside;
use sig_opening::{Unread, bytes_from};
use sig_stray::{ObjectKind, tell_strays};
use sig_txsettings::{TxSettings, tx_settings};
use std::alloc::Global;

/// Reads the settings with this name, and gives their source back. Members of them that nothing is taken of are told by lines.
pub fn settings_from<X: Outside>(
    alloc: Global,
    name: &str,
    outside: &mut X,
) -> Result<TxSettings, Unread>
    ensures says { IfOk result (λ said. Says (X.settings_of outside.old name.now) said) }
    ensures proper { IfOk result (λ said. IsProperRules said.rules) }
    ensures halts { IfErr result (λ cause. HaltsSettings tx_settings_of cause (X.settings_of outside.old name.now) (X.settings_faults outside.old) (X.settings_faults outside.new)) }
    ensures others { KeepsOtherSettings name.now (X.settings_of outside.old) (X.settings_of outside.new) }
    ensures stores { (X.held outside.new ≡ X.held outside.old) × (X.lent outside.new ≡ X.lent outside.old) × (X.store_faults outside.new ≡ X.store_faults outside.old) × (X.there outside.new ≡ X.there outside.old) }
    ensures doors { (X.doors outside.new ≡ X.doors outside.old) × (X.doors_out outside.new ≡ X.doors_out outside.old) × (X.doors_back outside.new ≡ X.doors_back outside.old) }
    ensures sides { (X.sides outside.new ≡ X.sides outside.old) × (X.sides_out outside.new ≡ X.sides_out outside.old) × (X.sides_back outside.new ≡ X.sides_back outside.old) }
    ensures network { X.network_faults outside.new ≡ X.network_faults outside.old }
{
    match bytes_from(alloc, name, outside) {
        Ok(bytes) => {
            let text = bytes.as_slice();
            tell_strays(alloc, ObjectKind::Transmitter, text, outside);
            match tx_settings(alloc, text) {
                Ok(said) => Ok(said),
                Err(fault) => Err(Unread::of_settings(fault)),
            }
        }
        Err(fault) => Err(Unread::of_read(fault)),
    }
}
