//! Laws over definitions: each is the contract of a function that does nothing.

ghost use Rattle.sig_bounds.specs.Sizes.{TextsAreSmall};
ghost use Rattle.sig_bounds.specs.Wants.{WantsAreProper};

/// The strings of what a text spells have no more bytes together than the text, each counted with one byte more (RFC 8259,
/// section 7).
pub fn texts_are_small()
    ensures { TextsAreSmall }
{}

/// What is wanted of a stream in a text of at most 65,536 bytes is proper: its endpoint is the one that its url spells, and
/// its texts and its list are within the limits (Shared Signals Framework 1.0, section 8.1.1).
pub fn wants_are_proper()
    ensures { WantsAreProper }
{}
