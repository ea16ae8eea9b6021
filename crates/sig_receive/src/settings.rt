//! The settings by their name, as the outside hands them out.

ghost use Rattle.std.specs.Prelude.{◌≡◌, IfErr, IfOk, IfSome};
ghost use Rattle.sig_opening.specs.Settings.{HaltsSettings};
ghost use Rattle.sig_opening.specs.Stays.{KeepsOtherSettings};
ghost use Rattle.sig_rxsettings.specs.Peers.{HasItsGateway};
ghost use Rattle.sig_rxsettings.specs.Settings.{rx_settings_of};
ghost use Rattle.sig_receive.specs.Ends.{Says};

use sig_links::Outside;
use sig_opening::{Unread, bytes_from};
use sig_rxsettings::{RxSettings, rx_settings};
use sig_stray::{ObjectKind, tell_strays};
use std::alloc::Global;

/// Reads the settings with this name, and gives their source back. Members of them that nothing is taken of are told by lines.
pub fn settings_from<X: Outside>(
    alloc: Global,
    name: &str,
    outside: &mut X,
) -> Result<RxSettings, Unread>
    ensures says { IfOk result (λ said. Says (X.settings_of outside.old name.now) said) }
    ensures reached { IfOk result (λ said. IfSome said.rules.peer HasItsGateway) }
    ensures halts { IfErr result (λ cause. HaltsSettings rx_settings_of cause (X.settings_of outside.old name.now) (X.settings_faults outside.old) (X.settings_faults outside.new)) }
    ensures others { KeepsOtherSettings name.now (X.settings_of outside.old) (X.settings_of outside.new) }
    ensures stores { (X.held outside.new ≡ X.held outside.old) × (X.lent outside.new ≡ X.lent outside.old) × (X.store_faults outside.new ≡ X.store_faults outside.old) × (X.there outside.new ≡ X.there outside.old) }
    ensures doors { (X.doors outside.new ≡ X.doors outside.old) × (X.doors_out outside.new ≡ X.doors_out outside.old) × (X.doors_back outside.new ≡ X.doors_back outside.old) }
    ensures sides { (X.sides outside.new ≡ X.sides outside.old) × (X.sides_out outside.new ≡ X.sides_out outside.old) × (X.sides_back outside.new ≡ X.sides_back outside.old) }
    ensures network { X.network_faults outside.new ≡ X.network_faults outside.old }
{
    match bytes_from(alloc, name, outside) {
        Ok(bytes) => {
            let text = bytes.as_slice();
            tell_strays(alloc, ObjectKind::Receiver, text, outside);
            match rx_settings(alloc, text) {
                Ok(said) => Ok(said),
                Err(fault) => Err(Unread::of_settings(fault)),
            }
        }
        Err(fault) => Err(Unread::of_read(fault)),
    }
}
