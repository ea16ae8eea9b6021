//! Laws over the definitions: each function's contract is the law, and nothing calls it.

ghost use Rattle.sig_isolation.specs.Isolation.{AnswersAreIsolated, PartsAreIsolated};

/// Of one client's streams, what each owes and how many it ever made, nothing that other clients did changes anything.
pub fn clients_are_isolated()
    ensures { PartsAreIsolated }
{}

/// What a client is told, and the fact that its call makes, rest on nothing that other clients did.
pub fn answers_are_isolated()
    ensures { AnswersAreIsolated }
{}
