//! What a transmitter's calls may do: a publication that comes again is answered as at first, a client changes its own streams
//! alone, and tokens are for whom the settings say (OpenID Shared Signals Framework 1.0, section 8; RFC 8417, section 2.2).
//!
//! It stands on `sig_calls` for how calls are answered, and on `sig_isolation` for which calls a client makes for itself. It
//! holds laws alone, and none of the product stands on it.
//!
//! Promised by `laws`: the first answer to a publication's name is the answer to each repeat, for ever; the fact of a client's
//! call names a stream of that client, publishes nothing, makes no token for another client, and leaves every stream of another
//! as it was; and each token that calls make has the issuer and the audience that the settings give to its stream's client.
#![tactic(auto)]

pub mod laws;
