//! Laws over definitions: each is the contract of a function that does nothing.

ghost use Rattle.sig_json.specs.Canon.{ReadsCanonical, SpellsCanonical};
ghost use Rattle.sig_json.specs.Order.{HasInOrder, OrderIsCanonical, SpellsInOrder};

/// The compact text of a canonical value that nests at most 127 deep spells that value, and so no other.
pub fn canon_reads()
    ensures { ReadsCanonical }
{}

/// What a text spells without a fraction is canonical.
pub fn spelled_is_canonical()
    ensures { SpellsCanonical }
{}

/// What a text spells is in order, and nests at most 127 deep.
pub fn spelled_is_in_order()
    ensures { SpellsInOrder }
{}

/// A member of a value in order is in order, and nests less deep.
pub fn members_are_in_order()
    ensures { HasInOrder }
{}

/// A value in order in which no fraction stands is canonical.
pub fn order_without_fraction_is_canonical()
    ensures { OrderIsCanonical }
{}
