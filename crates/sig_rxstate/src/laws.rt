//! Laws over definitions: each is the contract of a function that does nothing.

ghost use Rattle.sig_rxstate.specs.Laws.{SpellingsDiffer, StatesAreExact};

/// A proper state is decoded of its spelling; what is decoded is a proper state, of its one spelling; and no spelling
/// begins with another.
pub fn states_are_exact()
    ensures { StatesAreExact }
{}

/// No two proper states have one spelling.
pub fn spellings_differ()
    ensures { SpellingsDiffer }
{}
