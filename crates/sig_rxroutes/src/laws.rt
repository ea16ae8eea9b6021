//! Laws over definitions: each is the contract of a function that does nothing.

ghost use Rattle.sig_rxroutes.specs.Laws.{BearersDecide, LeavesLinksOpen, NoCacheKeeps, PrincipalsSpeakForThemselves, PushesAreRead, RequestsMakeProperCalls, RoutesExactly, SettlesPushes};

/// A request makes a call exactly where it is for a route, whose bearer, query and body it has.
pub fn routes_are_exact()
    ensures { RoutesExactly }
{}

/// A push is brought by an issuer only where the bearer is that of a principal which may speak for it, and the session
/// table is read only with the reader's bearer.
pub fn bearers_decide()
    ensures { BearersDecide }
{}

/// Where principals with one bearer speak for one issuer, a principal's bearer pushes for its issuer alone.
pub fn principals_speak_for_themselves()
    ensures { PrincipalsSpeakForThemselves }
{}

/// A push is read whatever bearer it shows: none is refused for want of one, since the code of the token's refusal says so
/// (RFC 8935, section 2.4).
pub fn pushes_are_read()
    ensures { PushesAreRead }
{}

/// A token is the body as it stands, and no poll listed it; a subject of which something is asked is proper; and a page
/// begins at a place up to 2^62.
pub fn requests_make_proper_calls()
    ensures { RequestsMakeProperCalls }
{}

/// After each response the link stays open.
pub fn responses_leave_links_open()
    ensures { LeavesLinksOpen }
{}

/// The response to a push settles it at the transmitter that made it: a token that is valid as accepted, whether it is new
/// or was taken before, and one that is refused by its code (RFC 8935, sections 2.2 to 2.4).
pub fn responses_settle_pushes()
    ensures { SettlesPushes }
{}

/// No cache may keep a response (RFC 9111, section 5.2.2.5).
pub fn no_cache_keeps_an_answer()
    ensures { NoCacheKeeps }
{}
