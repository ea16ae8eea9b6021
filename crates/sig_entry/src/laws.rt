//! Laws over definitions: each is the contract of a function that does nothing.

ghost use Rattle.sig_entry.specs.Laws.{FactsAreExact, TokensAreExact};

/// A proper fact is decoded of its spelling; what is decoded is a proper fact, of its one spelling; and no spelling begins
/// with another.
pub fn facts_are_exact()
    ensures { FactsAreExact }
{}

/// A token of fewer than 2^32 bytes is decoded of its spelling; what is decoded is such a token, of its one spelling; and
/// no spelling begins with another.
pub fn tokens_are_exact()
    ensures { TokensAreExact }
{}
