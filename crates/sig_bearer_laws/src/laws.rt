//! Laws over the definitions: each function's contract is the law, and nothing calls it.

ghost use Rattle.sig_bearer_laws.specs.Receivers as rx;
ghost use Rattle.sig_bearer_laws.specs.Transmitters as tx;

/// The bearers of a transmitter's settings differ: no client has the operator's, and no two clients have one.
pub fn transmitters_bearers_differ()
    ensures { tx.BearersDiffer }
{}

/// What is read of a transmitter's settings is what the laws of its routes ask of rules: each bearer is one client's or the
/// operator's.
pub fn transmitters_callers_are_apart()
    ensures { tx.CallersAreApart }
{}

/// Under settings that were read, a request with a client's bearer makes calls of that client alone, and those that are
/// anybody's.
pub fn clients_ask_for_themselves()
    ensures { tx.ClientsAskForThemselves }
{}

/// Under settings that were read, a request with the operator's bearer makes calls of the operator alone, and those that are
/// anybody's.
pub fn operators_ask_for_themselves()
    ensures { tx.OperatorsAskForThemselves }
{}

/// The bearers of a receiver's settings differ: the reader's, those of the principals, and the one that is shown to the peer,
/// if there is one.
pub fn receivers_bearers_differ()
    ensures { rx.BearersDiffer }
{}

/// What is read of a receiver's settings is what the laws of its routes ask of rules: each principal's bearer speaks for one
/// issuer.
pub fn receivers_callers_are_apart()
    ensures { rx.CallersAreApart }
{}

/// No principal of settings that were read has the reader's bearer, and the peer is shown neither the reader's nor a
/// principal's.
pub fn bearers_are_ones_own()
    ensures { rx.BearersAreOnesOwn }
{}

/// Under settings that were read, a request with a principal's bearer pushes for the issuer of that principal alone, and reads
/// nothing of the session table.
pub fn principals_push_for_themselves()
    ensures { rx.PrincipalsPushForThemselves }
{}

/// Under settings that were read, a push with the reader's bearer speaks for no issuer.
pub fn readers_speak_for_nobody()
    ensures { rx.ReadersSpeakForNobody }
{}

/// Under settings that were read, the bearer that is shown to the peer is worth nothing at the receiver: a request with it
/// pushes for no issuer, and reads nothing of the session table.
pub fn peers_ask_nothing()
    ensures { rx.PeersAskNothing }
{}
