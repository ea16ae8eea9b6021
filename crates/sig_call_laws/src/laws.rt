//! Laws over the definitions: each function's contract is the law, and nothing calls it.

ghost use Rattle.sig_call_laws.specs.Audience.{TokensAreForTheClient};
ghost use Rattle.sig_call_laws.specs.Authority.{ClientsChangeTheirOwn};
ghost use Rattle.sig_call_laws.specs.Repeats.{OtherNewsConflict, RepeatsAreAnsweredAlike};

/// Once a publication is answered with its tokens, the same news under its name are answered with the same tokens at any later
/// time, whatever facts come between, and change nothing.
pub fn repeats_are_answered_alike()
    ensures { RepeatsAreAnsweredAlike }
{}

/// Once a publication is answered with its tokens, other news under its name are refused as a conflict at any later time,
/// whatever facts come between, and change nothing.
pub fn other_news_conflict()
    ensures { OtherNewsConflict }
{}

/// Under proper rules and over what is whole, the fact of a call that a client makes for itself names a stream of that client,
/// publishes nothing, makes tokens for that client alone, and leaves the streams of others and what they owe as they were
/// (Shared Signals Framework 1.0, section 8.1).
pub fn clients_change_their_own()
    ensures { ClientsChangeTheirOwn }
{}

/// Under proper rules each token that calls make over a new store has the rules' issuer, and the audience that the rules give
/// to the client whose name begins its stream's (Shared Signals Framework 1.0, section 8.1.1; RFC 8417, section 2.2).
pub fn tokens_are_for_the_client()
    ensures { TokensAreForTheClient }
{}
