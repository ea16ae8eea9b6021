ghost use Rattle.std.specs.Prelude.{◌≡◌, ℕ, List, false};

use sig_json::Text;
use sig_txnode::{Taker, Turn};
use std::sync::Wait;

/// A taker that others ask too, some of which may be trying a stream when a push round of it is to begin.
///
/// Its meaning `passes` says of which streams a push round may be passed over.
pub trait Passing: Taker {
    ghost passes: { List ℕ → Type 0 };

    /// Whether a push round of this stream begins now; if not, it is passed over.
    fn begins<R: Wait>(&mut self, rt: &R, stream: &Text) -> bool
        ensures passes { result ≡ false → Self.passes stream.now }
        ensures told { Self.Taker.told self.new ≡ Self.Taker.told self.old };

    /// A push round of this stream, which had begun, came to these turns. Answers how many tokens it was brought, where it was
    /// late until now and is no more.
    fn ended<R: Wait>(&mut self, rt: &R, stream: &Text, turns: &[Turn]) -> Option<u64>
        ensures { Self.Taker.told self.new ≡ Self.Taker.told self.old };
}
