//! Laws over definitions: each is the contract of a function that does nothing.

ghost use Rattle.sig_base.specs.Laws.{BasesAreExact, HistoriesAreMade, NewStoresAreMade, NothingIsForgotten, SpellingsDiffer};

/// A proper base is decoded of its spelling; what is decoded is a proper base, of its one spelling; and no spelling begins
/// with another.
pub fn bases_are_exact()
    ensures { BasesAreExact }
{}

/// No two proper bases have one spelling.
pub fn spellings_differ()
    ensures { SpellingsDiffer }
{}

/// What two histories of one store came to is the same where its bases are equal: a base forgets nothing.
pub fn nothing_is_forgotten()
    ensures { NothingIsForgotten }
{}

/// What a history comes to over a new store, or over what such a history came to, is one of which a base forgets nothing.
pub fn histories_are_made()
    ensures new { NewStoresAreMade }
    ensures later { HistoriesAreMade }
{}
