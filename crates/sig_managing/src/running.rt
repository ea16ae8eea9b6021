//! A run of `manage` from the settings to the end.

ghost use Rattle.std.specs.Prelude.{◌≡◌, ◌≢◌, ℕ, List, IfErr, IfOk, true};
ghost use Rattle.sig_command.specs.Moment.{OutputCalm, OutputStopped, output_state};
ghost use Rattle.sig_declared.specs.Settings.{manage_settings_of};
ghost use Rattle.sig_managing.specs.Asks.{lacks_gateway};
ghost use Rattle.sig_managing.specs.Runs.{ManagesBy, Run};
ghost use Rattle.sig_opening.specs.Settings.{AreRefused, HaltsSettings, Says};
ghost use Rattle.sig_opening.specs.Stays.{KeepsOtherSettings};
ghost use Rattle.sig_outside.specs.Causes.{Rose};
ghost use Rattle.sig_receive.specs.Sides.{sides_of};

use crate::{ManageEnd, drive};
use sig_declared::{ManageSettings, manage_settings};
use sig_links::Outside;
use sig_opening::{Unread, bytes_from};
use sig_outside::Sink;
use std::alloc::Global;

/// Brings a client's streams at a transmitter to those that the settings of this name declare, over a side of the outside, and
/// puts the line of each change (OpenID Shared Signals Framework 1.0, sections 8.1.1 and 8.1.2).
///
/// The settings are read first and given back, then the side is taken, which is given back before the end. What was changed
/// before a fault stays.
pub fn manage<X: Outside, O: Sink>(
    alloc: Global,
    settings: &str,
    output: &mut O,
    outside: &mut X,
) -> ManageEnd
    // The causes of the ends.
    ensures settings_failed { result ≡ ManageEnd.SettingsFailed → Rose (X.settings_faults outside.old) (X.settings_faults outside.new) }
    ensures refused { (member : List ℕ) → result ≡ ManageEnd.Refused member → AreRefused manage_settings_of (X.settings_of outside.old settings.now) member }
    ensures network_failed { result ≡ ManageEnd.NetworkFailed → Rose (X.network_faults outside.old) (X.network_faults outside.new) }
    ensures output_failed { result ≡ ManageEnd.OutputFailed → OutputStopped (output_state (O.written output.old) (O.faults output.old) (O.stalls output.old)) (output_state (O.written output.new) (O.faults output.new) (O.stalls output.new)) }
    ensures output_calm { result ≢ ManageEnd.OutputFailed → OutputCalm (output_state (O.written output.old) (O.faults output.old) (O.stalls output.old)) (output_state (O.written output.new) (O.faults output.new) (O.stalls output.new)) }

    // What was asked over a side, and put to the output.
    ensures manages { ManagesBy (X.settings_of outside.old settings.now) result (sides_of (X.sides outside.old) (X.sides_back outside.old)) (sides_of (X.sides outside.new) (X.sides_back outside.new))
        (output_state (O.written output.old) (O.faults output.old) (O.stalls output.old)) (output_state (O.written output.new) (O.faults output.new) (O.stalls output.new)) }

    // What stays as it was.
    ensures stores { (X.held outside.new ≡ X.held outside.old) × (X.lent outside.new ≡ X.lent outside.old) × (X.store_faults outside.new ≡ X.store_faults outside.old) × (X.there outside.new ≡ X.there outside.old) }
    ensures settings { KeepsOtherSettings settings.now (X.settings_of outside.old) (X.settings_of outside.new) }
    ensures doors { (X.doors outside.new ≡ X.doors outside.old) × (X.doors_out outside.new ≡ X.doors_out outside.old) × (X.doors_back outside.new ≡ X.doors_back outside.old) }
{
    match settings_from(alloc, settings, outside) {
        Ok(said) => manage_by(alloc, said, output, outside),
        Err(cause) => ManageEnd::of_unread(cause),
    }
}

// Reads the settings with this name, and gives their source back.
fn settings_from<X: Outside>(
    alloc: Global,
    name: &str,
    outside: &mut X,
) -> Result<ManageSettings, Unread>
    ensures says { IfOk result (λ said. Says manage_settings_of (X.settings_of outside.old name.now) said) }
    ensures reached { IfOk result (λ said. lacks_gateway said.provider ≢ true) }
    ensures halts { IfErr result (λ cause. HaltsSettings manage_settings_of cause (X.settings_of outside.old name.now) (X.settings_faults outside.old) (X.settings_faults outside.new)) }
    ensures others { KeepsOtherSettings name.now (X.settings_of outside.old) (X.settings_of outside.new) }
    ensures stores { (X.held outside.new ≡ X.held outside.old) × (X.lent outside.new ≡ X.lent outside.old) × (X.store_faults outside.new ≡ X.store_faults outside.old) × (X.there outside.new ≡ X.there outside.old) }
    ensures doors { (X.doors outside.new ≡ X.doors outside.old) × (X.doors_out outside.new ≡ X.doors_out outside.old) × (X.doors_back outside.new ≡ X.doors_back outside.old) }
    ensures sides { (X.sides outside.new ≡ X.sides outside.old) × (X.sides_out outside.new ≡ X.sides_out outside.old) × (X.sides_back outside.new ≡ X.sides_back outside.old) }
    ensures network { X.network_faults outside.new ≡ X.network_faults outside.old }
{
    match bytes_from(alloc, name, outside) {
        Ok(bytes) => match manage_settings(alloc, bytes.as_slice()) {
            Ok(said) => Ok(said),
            Err(fault) => Err(Unread::of_settings(fault)),
        },
        Err(fault) => Err(Unread::of_read(fault)),
    }
}

// Brings the streams to what these settings declare, over a side that is given back.
fn manage_by<X: Outside, O: Sink>(
    alloc: Global,
    said: ManageSettings,
    output: &mut O,
    outside: &mut X,
) -> ManageEnd
    requires reached { lacks_gateway said.provider ≢ true }
    ensures settings_failed { result ≢ ManageEnd.SettingsFailed }
    ensures refused { (member : List ℕ) → result ≢ ManageEnd.Refused member }
    ensures network_failed { result ≡ ManageEnd.NetworkFailed → Rose (X.network_faults outside.old) (X.network_faults outside.new) }
    ensures output_failed { result ≡ ManageEnd.OutputFailed → OutputStopped (output_state (O.written output.old) (O.faults output.old) (O.stalls output.old)) (output_state (O.written output.new) (O.faults output.new) (O.stalls output.new)) }
    ensures output_calm { result ≢ ManageEnd.OutputFailed → OutputCalm (output_state (O.written output.old) (O.faults output.old) (O.stalls output.old)) (output_state (O.written output.new) (O.faults output.new) (O.stalls output.new)) }
    ensures run { Run said result (sides_of (X.sides outside.old) (X.sides_back outside.old)) (sides_of (X.sides outside.new) (X.sides_back outside.new))
        (output_state (O.written output.old) (O.faults output.old) (O.stalls output.old)) (output_state (O.written output.new) (O.faults output.new) (O.stalls output.new)) }
    ensures stores { (X.held outside.new ≡ X.held outside.old) × (X.lent outside.new ≡ X.lent outside.old) × (X.store_faults outside.new ≡ X.store_faults outside.old) × (X.there outside.new ≡ X.there outside.old) }
    ensures settings { X.settings_of outside.new ≡ X.settings_of outside.old }
    ensures doors { (X.doors outside.new ≡ X.doors outside.old) × (X.doors_out outside.new ≡ X.doors_out outside.old) × (X.doors_back outside.new ≡ X.doors_back outside.old) }
{
    let ManageSettings { provider, declared } = said;
    let mut side = outside.side();
    let driven = drive(alloc, &mut side, &provider, declared, output);
    outside.back_side(side);
    ManageEnd::of_driven(driven)
}
