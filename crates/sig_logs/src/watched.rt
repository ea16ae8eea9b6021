ghost use Rattle.std.specs.Prelude.{◌≡◌, List, Bool};

use crate::LinkTurn;

/// A node of which contracts see the turns of its links, over a store that may fail.
pub trait Watched {
    type Turn: LinkTurn;

    /// The turns that it kept, in order. When the program runs it has them no more.
    ghost turns_of: { Self → List Self.Turn };

    ghost broken: { Self → Bool };

    /// Whether its store has failed.
    fn is_broken(&self) -> bool
        ensures { result ≡ broken self.now };
}
