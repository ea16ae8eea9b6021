//! Laws over the definitions: each function's contract is the law, and nothing calls it.

ghost use Rattle.sig_txnode.specs.Turns.{TurnsAreAHistory};

/// Whatever the turns are, the state after them is what the base comes to with the changes of those that were answered, in
/// order.
pub fn turns_are_a_history()
    ensures { TurnsAreAHistory }
{}
