//! Laws over definitions: each is the contract of a function that does nothing.

ghost use Rattle.sig_txroutes.specs.Laws.{BearersDecide, ClientsAskForThemselves, NoCacheKeeps, NoContentIsEmpty, OperatorsAskForThemselves, PagesRestOnTheKey, RequestsMakeProperCalls, RoutesExactly, TellsNoSecrets};

/// A request makes a call exactly where it is for a route, whose bearer, query and body it has, and that body isn't too long.
pub fn routes_are_exact()
    ensures { RoutesExactly }
{}

/// A client's call comes with the bearer of a client of that name, and the operator's with the operator's.
pub fn bearers_decide()
    ensures { BearersDecide }
{}

/// Where no two clients have one bearer and none has the operator's, a client's bearer makes calls of that client alone.
pub fn clients_ask_for_themselves()
    ensures { ClientsAskForThemselves }
{}

/// Where no client has the operator's bearer, that bearer makes calls of no client.
pub fn operators_ask_for_themselves()
    ensures { OperatorsAskForThemselves }
{}

/// A call that a request makes wants what the body spells, its subject and news are proper, and the texts that a token
/// says are in UTF-8. What the transmitter asks itself is none.
pub fn requests_make_proper_calls()
    ensures { RequestsMakeProperCalls }
{}

/// What a response that is no page of tokens tells rests of the rules on the issuer, the prefix of addresses and the default
/// subjects alone: it tells no bearer, no client and no key of theirs.
pub fn responses_tell_no_secrets()
    ensures { TellsNoSecrets }
{}

/// What a page of tokens tells rests of the rules on the key alone, by which the tokens are signed.
pub fn pages_rest_on_the_key()
    ensures { PagesRestOnTheKey }
{}

/// A response of status 204 has no body (RFC 9110, section 15.3.5).
pub fn no_content_is_empty()
    ensures { NoContentIsEmpty }
{}

/// No cache may keep a response, but that which tells what the transmitter offers (RFC 9111, section 5.2.2.5).
pub fn no_cache_keeps_an_answer()
    ensures { NoCacheKeeps }
{}
