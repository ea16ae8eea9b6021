//! Laws over the definitions: each function's contract is the law, and nothing calls it.

ghost use Rattle.sig_delivery.specs.Laws.{AreOrderedErrors, AreOrderedTokens, ReadsAsksInOrder, ReadsBackAsk, ReadsBackPush, ReadsBackSets, ReadsSetsInOrder, SettlesByCode};

/// What `write_ask` writes is read by `read_ask` as the ask that it was, with its errors in byte order of identifiers, and
/// of several errors for one token the first.
pub fn a_written_ask_is_read_back()
    ensures { ReadsBackAsk }
{}

/// Errors in byte order of identifiers have each identifier once, and under each the first error of it; errors that stand
/// so already stay as they are.
pub fn errors_are_ordered()
    ensures { AreOrderedErrors }
{}

/// The errors that `read_ask` reads stand in byte order of identifiers, each identifier once.
pub fn asks_are_read_in_order()
    ensures { ReadsAsksInOrder }
{}

/// What `write_sets` writes is read by `read_sets` as the tokens' identifiers, each with its signed text, and as whether
/// there are more.
pub fn written_sets_are_read_back()
    ensures { ReadsBackSets }
{}

/// The tokens that `read_sets` reads stand in byte order of identifiers, each identifier once.
pub fn sets_are_read_in_order()
    ensures { ReadsSetsInOrder }
{}

/// Signed tokens in byte order of identifiers have each identifier once, and under each the first token of it; tokens that
/// stand so already stay as they are.
pub fn tokens_are_ordered()
    ensures { AreOrderedTokens }
{}

/// What `coded` says is taken by `outcome_of` for what the code settles: each of `invalid_request`, `invalid_key`,
/// `invalid_issuer` and `invalid_audience` as that code, and the two that speak of the bearer as nothing.
pub fn codes_settle_pushes()
    ensures { SettlesByCode }
{}

/// A push that is written to a place with the kind `application/secevent+jwt` is read as that push, whatever bytes follow
/// it, where its parts may stand in a head and are within the limits; its bearer is what follows `Bearer` in the
/// authorization.
pub fn a_written_push_is_read_back()
    ensures { ReadsBackPush }
{}
