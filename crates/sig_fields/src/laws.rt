//! Laws over definitions: each is the contract of a function that does nothing.

ghost use Rattle.sig_fields.specs.Agreeing.{FlagsAgree, NumbersAgree, TextsAgree};
ghost use Rattle.sig_fields.specs.Whole.{BytesAreExact};

/// A number is read as it is spelled, and of its one spelling.
pub fn numbers_agree()
    ensures { NumbersAgree }
{}

/// A text of fewer than 2^32 bytes is read as it is spelled, and of its one spelling.
pub fn texts_agree()
    ensures { TextsAgree }
{}

/// A flag is read as it is spelled, and of its one spelling.
pub fn flags_agree()
    ensures { FlagsAgree }
{}

/// Fewer than 2^32 bytes are decoded of their spelling; what is decoded has it; and no such spelling begins with another.
pub fn bytes_are_exact()
    ensures { BytesAreExact }
{}
