//! Laws over the definitions: each function's contract is the law, and nothing calls it.

ghost use Rattle.sig_txend.specs.Laws.{RoundsAreOfClients};

/// No turn of a push round hands out tokens of a stream whose client the rules don't have, as one that is in the settings no
/// more.
pub fn rounds_are_of_clients()
    ensures { RoundsAreOfClients }
{}
