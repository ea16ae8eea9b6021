//! Laws over the definitions: each function's contract is the law, and nothing calls it.

ghost use Rattle.sig_answer_laws.specs.Exact.{ConflictComes, DisabledComes, EarlyComes, LongComes, NotFoundComes, TooManyComes};
ghost use Rattle.sig_answer_laws.specs.Laws.{AddedIsTrue, AskedIsTrue, ConfIsTrue, ConflictIsTrue, ConfsIsTrue, DeliveringIsTrue, DisabledIsTrue, EarlyIsTrue, FiguresAreTrue, GoneIsTrue, HandedIsTrue, LongIsTrue, MadeIsTrue, MetaIsTrue, NotFoundIsTrue, PublishedIsTrue, RefusedAreTrue, RemovedIsTrue, SetsIsTrue, SettledIsTrue, StandingsAreTrue, StateIsTrue, TooManyIsTrue};

/// The answer that what the transmitter offers is told comes to the call that asks for it, and nothing changes (Shared Signals
/// Framework 1.0, section 7.1).
pub fn meta_is_true()
    ensures { MetaIsTrue }
{}

/// A configuration that is answered as made is that of a new stream of the client that asked for it, which stands with just
/// what was wanted, the rules' issuer and the client's audience (Shared Signals Framework 1.0, section 8.1.1.1).
pub fn made_is_true()
    ensures { MadeIsTrue }
{}

/// A configuration that is answered is that with which the client's stream stands after the call (Shared Signals Framework
/// 1.0, sections 8.1.1.2 to 8.1.1.4).
pub fn conf_is_true()
    ensures { ConfIsTrue }
{}

/// The configurations that are answered are those of all streams of the client, and of no other client (Shared Signals
/// Framework 1.0, section 8.1.1.2).
pub fn confs_are_true()
    ensures { ConfsIsTrue }
{}

/// A stream that is answered as deleted stands no longer and owes nothing (Shared Signals Framework 1.0, section 8.1.1.5).
pub fn gone_is_true()
    ensures { GoneIsTrue }
{}

/// A status that is answered is that with which the stream stands after the call, and the token whose number is answered is
/// owed and tells it (Shared Signals Framework 1.0, sections 8.1.2 and 8.1.5).
pub fn state_is_true()
    ensures { StateIsTrue }
{}

/// A subject that is answered as added is one of the stream's: a publication about it is due there, where the stream isn't
/// disabled and delivers the type (Shared Signals Framework 1.0, section 8.1.3.2).
pub fn added_is_true()
    ensures { AddedIsTrue }
{}

/// A subject that is answered as removed is none of the stream's, unless another one that was added matches it (Shared Signals
/// Framework 1.0, section 8.1.3.3).
pub fn removed_is_true()
    ensures { RemovedIsTrue }
{}

/// The verification whose number is answered is owed, with the state that was asked for (Shared Signals Framework 1.0, section
/// 8.1.4).
pub fn asked_is_true()
    ensures { AskedIsTrue }
{}

/// A poll is answered with the first tokens that its stream offers once it has settled, in order, as many as were asked for and
/// a page has; `more` says exactly whether others follow, and then the page is full (RFC 8936, section 2.4).
pub fn sets_are_true()
    ensures { SetsIsTrue }
{}

/// A publication that is answered stands under its name with the tokens that are answered, and where it is the first of the
/// name each of them is owed and tells the event.
pub fn published_is_true()
    ensures { PublishedIsTrue }
{}

/// A page that the operator reads tells of each stream of every client that stands at one of its places, in order, its status,
/// how many tokens it owes and since when, and how many were made for it; the place that is answered is the one behind them.
pub fn standings_are_true()
    ensures { StandingsAreTrue }
{}

/// A page of the tokens that were reported as faulty has those that are kept, in the order in which they were reported, from
/// the place that was asked for; the place that is answered is the one behind them.
pub fn refused_are_true()
    ensures { RefusedAreTrue }
{}

/// Figures that the operator reads tell so of each stream of every client, once and in order, and how many publications stand.
pub fn figures_are_true()
    ensures { FiguresAreTrue }
{}

/// A round of pushes is answered to begin for a stream that stands and whose tokens are sent (RFC 8935, section 2).
pub fn delivering_is_true()
    ensures { DeliveringIsTrue }
{}

/// The tokens that are handed are the first ones that the named push streams offer, stream by stream and each once; a page that
/// isn't full has them all (RFC 8935, section 2).
pub fn handed_is_true()
    ensures { HandedIsTrue }
{}

/// One token is answered as settled that was owed and is no longer, or none, where it isn't owed or its answer settles nothing
/// (RFC 8935, section 2).
pub fn settled_is_true()
    ensures { SettledIsTrue }
{}

/// A call is answered that nothing was found only where the client or the stream that it names isn't there, and nothing
/// changes.
pub fn not_found_is_true()
    ensures { NotFoundIsTrue }
{}

/// A client is answered to have too many streams only where it has as many as it may, and nothing changes.
pub fn too_many_is_true()
    ensures { TooManyIsTrue }
{}

/// A publication is answered to conflict only where other news were published under its name, and nothing changes.
pub fn conflict_is_true()
    ensures { ConflictIsTrue }
{}

/// A verification is answered to be impossible only where the client's stream is disabled, and nothing changes (Shared Signals
/// Framework 1.0, section 8.1.4.2).
pub fn disabled_is_true()
    ensures { DisabledIsTrue }
{}

/// A verification is answered to be early only before the time that is answered, which is the stream's interval after the last
/// one, and nothing changes (Shared Signals Framework 1.0, section 8.1.4.2).
pub fn early_is_true()
    ensures { EarlyIsTrue }
{}

/// A call is answered to make too long a token only where the largest of its tokens has as many bytes as are answered, which
/// are more than a payload may have, and nothing changes.
pub fn long_is_true()
    ensures { LongIsTrue }
{}

/// Wherever the client or the stream that a call names isn't there, it is answered that nothing was found.
pub fn not_found_comes_exactly()
    ensures { NotFoundComes }
{}

/// Wherever a known client that makes a stream has as many as it may, it is answered so.
pub fn too_many_comes_exactly()
    ensures { TooManyComes }
{}

/// Wherever other news were published under a publication's name, it is answered to conflict.
pub fn conflict_comes_exactly()
    ensures { ConflictComes }
{}

/// Wherever a verification is asked of a disabled stream, it is answered so (Shared Signals Framework 1.0, section 8.1.4.2).
pub fn disabled_comes_exactly()
    ensures { DisabledComes }
{}

/// Wherever a verification is asked too short a time after the last, it is answered when the next one may be (Shared Signals
/// Framework 1.0, section 8.1.4.2).
pub fn early_comes_exactly()
    ensures { EarlyComes }
{}

/// Wherever nothing else refuses a call and one of its tokens would be too long, it is answered so, with the bytes of the
/// largest.
pub fn long_comes_exactly()
    ensures { LongComes }
{}
