//! Laws over the definitions: each function's contract is the law, and nothing calls it.

ghost use Rattle.sig_set.specs.Claims.{ReadsClaims};
ghost use Rattle.sig_set.specs.Laws.{AreJudgedValid, AreProperByParts, AreRead, AreShortEnough, AreUnderTheirAlgorithm, IsValidWhereJudged};

/// A payload says claims exactly where they are read of it.
pub fn claims_are_read()
    ensures { ReadsClaims }
{}

/// Claims with one proper event about a proper subject are proper, where their texts are UTF-8 and their payload nests no
/// deeper than is read.
pub fn claims_of_proper_parts_are_proper()
    ensures { AreProperByParts }
{}

/// What is written of proper claims, under a key with no name or one in UTF-8, is judged valid with these claims, where
/// the bearer speaks for the claims' issuer, the claims are for the trust's own name, the first of the trust's issuers
/// with the name of the claims' issuer has that key, and the token goes under the claims' identifier or no name.
pub fn written_claims_are_judged_valid()
    ensures { AreJudgedValid }
{}

/// What a valid token is: where a text is judged valid with claims, it has a header and a payload and was signed as the
/// header says, by HS256 under a secret that the header allows, or by RS256 so that a public key that the header allows
/// verifies it; the key is one of the first issuer named as the claims' issuer, and that issuer is the principal; the
/// claims' audience has the trust's own name; the payload says the claims; and the name is absent or the claims' identifier.
pub fn judged_tokens_are_valid()
    ensures { IsValidWhereJudged }
{}

/// No key is taken for one of another algorithm (RFC 8725, section 3.1): a token whose header says HS256 is judged valid by a
/// secret of its issuer alone, and one whose header says RS256 by a public key of it alone. So none is valid by an algorithm
/// for which its issuer has no key.
pub fn judged_tokens_are_signed_by_their_algorithm()
    ensures { AreUnderTheirAlgorithm }
{}

/// The claims of a token that is judged valid are read of its text without a key.
pub fn valid_claims_are_read()
    ensures { AreRead }
{}

/// Claims whose payload has at most 6,000 bytes are written, under a key without a name or with one of at most 64 of
/// the characters `A-Z a-z 0-9 . _ -`.
pub fn short_payloads_are_written()
    ensures { AreShortEnough }
{}
