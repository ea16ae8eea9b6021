ghost use Rattle.std.specs.Prelude.{◌≡◌, ℕ, List};

use sig_json::Same;

/// A turn that a node took for a link.
pub trait LinkTurn: Same {
    ghost link_of: { Self → ℕ };

    /// The number of the link.
    fn link(&self) -> u32
        ensures { result ≡ link_of self.now };
}

/// What a link came to, with its turns.
pub trait Logged {
    type Turn: LinkTurn;

    ghost number_of: { Self → ℕ };

    ghost turns_of: { Self → List Self.Turn };

    /// The number of the link.
    fn number(&self) -> u32
        ensures { result ≡ number_of self.now };

    /// Its turns, in order.
    fn turns(&self) -> &[Self::Turn]
        ensures { result.now ≡ turns_of self.now };
}
