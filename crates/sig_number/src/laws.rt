//! Laws over the definitions: each function's contract is the law, and nothing calls it.

ghost use Rattle.sig_number.specs.Laws.{DecidesModuli};

/// The test of bytes is true exactly where they spell a modulus.
pub fn is_modulus_decides()
    ensures { DecidesModuli }
{}
