//! A member of settings that nothing is taken of.

use sig_json::Items;
use sig_settings::Step;

/// Why nothing is taken of a member.
#[derive(Clone, Copy, Debug, PartialEq, Eq)]
pub enum StrayKind {
    /// Its object may have no member of this name.
    Unknown,
    /// A member of this name stands before it in its object: the later one is taken.
    Twice,
}

/// A member of settings that is unknown, or that stands in its object again.
#[derive(Debug, Drop)]
pub struct Stray {
    pub kind: StrayKind,
    /// The steps to it from the settings, the outermost first.
    pub path: Items<Step>,
}
