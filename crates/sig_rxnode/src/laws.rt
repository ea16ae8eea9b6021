//! Laws over definitions: each is the contract of a function that does nothing.

ghost use Rattle.sig_rxnode.specs.Laws.{AcknowledgedStand, TurnsAreAHistory};

/// Whatever texts a journal has, a text that is accepted or was seen over what is kept of them has its pair of issuer and
/// identifier among those of the journal's texts after the call.
pub fn acknowledged_tokens_stand()
    ensures { AcknowledgedStand }
{}

/// Whatever the turns are, what is kept after them is that of the texts of those that were answered, in order, over what was
/// kept before.
pub fn turns_are_a_history()
    ensures { TurnsAreAHistory }
{}
