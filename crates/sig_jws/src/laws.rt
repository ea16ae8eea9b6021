//! Laws over the definitions: each function's contract is the law, and nothing calls it.

ghost use Rattle.sig_jws.specs.Laws.{GivesBackWhatWasSigned, IsSignedWhereItVerifies, IsSpelledByItsParts};

/// What is signed is split into the header, the payload, the MAC and the signing input that went in.
pub fn split_gives_back_what_was_signed()
    ensures { GivesBackWhatWasSigned }
{}

/// A text that is split is its signing input, a dot and its MAC in base64url, and the signing input is that of its
/// header and payload. So each token has one text.
pub fn split_text_is_spelled_by_its_parts()
    ensures { IsSpelledByItsParts }
{}

/// A text that is split, and whose MAC is the right one under a key, is what `sign` writes of its header and payload
/// under that key.
pub fn verified_text_is_the_signed_one()
    ensures { IsSignedWhereItVerifies }
{}
