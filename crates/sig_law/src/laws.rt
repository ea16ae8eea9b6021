//! Laws over definitions: each is the contract of a function that does nothing.

ghost use Rattle.sig_law.specs.Law.{HoldsOnEverySchedule, OnlyGrows};

/// Over every schedule of calls, deliveries, answers and crashes each message is a token that the transmitter made, each token
/// that the receiver acknowledged stands in its journal, each token that the transmitter counts as acknowledged does
/// too, each token in the journal is one that was made, with the same claims, and is valid, no token stands there twice, the
/// session table is the fold of the journal, and each stream owes exactly the tokens made for it that no later fact took off.
pub fn every_schedule()
    ensures { HoldsOnEverySchedule }
{}

/// Whatever happens, both histories only grow.
pub fn histories_only_grow()
    ensures { OnlyGrows }
{}
