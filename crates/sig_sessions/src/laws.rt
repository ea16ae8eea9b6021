//! Laws over definitions: each is the contract of a function that does nothing.

ghost use Rattle.sig_sessions.specs.Laws.{KeepsDistinct, KeepsPlaces, KeepsProper, LeavesUncovered};

/// After claims each row stands at its place with its subject. At most one row is added, last: that of the claims'
/// subject, where an event has an effect and no row is of it.
pub fn rows_keep_place_and_subject()
    ensures { KeepsPlaces }
{}

/// A row that the claims' subject doesn't cover stays as it was.
pub fn uncovered_rows_stay()
    ensures { LeavesUncovered }
{}

/// Where no two rows are of identical subjects, no two are afterwards.
pub fn subjects_stay_distinct()
    ensures { KeepsDistinct }
{}

/// Proper claims leave proper rows proper, and add a proper one.
pub fn rows_stay_proper()
    ensures { KeepsProper }
{}
