//! Laws over definitions: each is the contract of a function that does nothing.

ghost use Rattle.sig_schedules.specs.Schedules.{EveryScriptIsLawful, ScriptsAreSchedules};

/// The world of a script is what a schedule makes of a new one: that of its lines' calls, deliveries, answers and times,
/// up to the line that stops it.
pub fn scripts_are_schedules()
    ensures { ScriptsAreSchedules }
{
    sig_script::laws::lines_are_proper();
}

/// What holds over every schedule holds of every script's world: each message is a token that the transmitter made, each
/// token that it counts as acknowledged stands in the receiver's journal, and each stream owes what was made for it and no
/// later fact took off.
pub fn every_script_is_lawful()
    ensures { EveryScriptIsLawful }
{
    sig_law::laws::every_schedule();
    sig_script::laws::lines_are_proper();
}
