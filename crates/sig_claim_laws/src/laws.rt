//! Laws over the definitions: each function's contract is the law, and nothing calls it.

ghost use Rattle.sig_claim_laws.specs.Claims.{ClaimsStandOnEverySchedule, TokensDifferOnEverySchedule};

/// After every schedule each token that the receiver acknowledged, and each that the transmitter counts as acknowledged, stands
/// in the receiver's journal with the claims that it was made with.
pub fn acknowledged_stand_with_their_claims()
    ensures { ClaimsStandOnEverySchedule }
{}

/// After every schedule no two of all tokens that the transmitter made have one identifier (RFC 8417, section 2.2).
pub fn made_tokens_differ()
    ensures { TokensDifferOnEverySchedule }
{}
