//! Laws over the definitions: each function's contract is the law, and nothing calls it.

ghost use Rattle.sig_rs256.specs.Laws.{DecidesKeys, DecidesSignatures};

/// The test of a modulus and an exponent is true exactly where they are a key.
pub fn is_key_decides()
    ensures { DecidesKeys }
{}

/// The test of a signature is true exactly where it is one of the message under the key (RFC 8017, section 8.2.2).
pub fn is_signature_decides()
    ensures { DecidesSignatures }
{}
