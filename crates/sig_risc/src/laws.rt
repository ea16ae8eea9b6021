//! Laws over definitions: each is the contract of a function that does nothing.

ghost use Rattle.sig_risc.specs.Events.{ReadsRisc};

/// An event is what a payload says exactly where it is read of it.
pub fn risc_is_read()
    ensures { ReadsRisc }
{}
