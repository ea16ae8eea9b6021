//! Laws over the definitions: each function's contract is the law, and nothing calls it.

ghost use Rattle.sig_round.specs.Laws.{HandedHaveEndpoints};

/// What the table of calls hands to a round has endpoints, since only push streams are in one (RFC 8935, section 2). So over a
/// taker that answers by the table no push ends with `NoEndpoint`.
pub fn handed_tokens_have_endpoints()
    ensures { HandedHaveEndpoints }
{}
