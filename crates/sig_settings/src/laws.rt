//! Laws over definitions: each is the contract of a function that does nothing.

ghost use Rattle.sig_settings.specs.Places.{ReadsPlaces};

/// A text spells a place exactly where that place is read of it.
pub fn places_are_read()
    ensures { ReadsPlaces }
{}
