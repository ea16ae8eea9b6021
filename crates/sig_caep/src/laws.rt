//! Laws over definitions: each is the contract of a function that does nothing.

ghost use Rattle.sig_caep.specs.Events.{ReadsCaep};

/// An event is what a payload says exactly where it is read of it.
pub fn caep_is_read()
    ensures { ReadsCaep }
{}
