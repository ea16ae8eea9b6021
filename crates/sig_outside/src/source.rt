ghost use Rattle.std.specs.Prelude.{◌≡◌, ℕ, List, Option};
ghost use Rattle.std.specs.Io.{ReadsAtMost};
ghost use Rattle.std.specs.Io.KnownBytes.{ReadConsumes};
ghost use Rattle.sig_outside.specs.Causes.{Beside, HasCause};

use crate::Failed;

/// What gives bytes.
///
/// Its meanings: `left` is the rest of the input, where the source tells it; `faults` counts the calls that failed, each
/// once (it stands at 2^64 - 1); `beside` is the other direction of a link, and nothing of any other source.
pub trait Source {
    ghost left: { Self → Option (List ℕ) };

    ghost beside: { Self → Beside };

    ghost faults: { Self → ℕ };

    /// Takes bytes into the buffer, from its first place on, and answers how many: 0 into a buffer with room only at the end
    /// of the input. The count of faults stays where a call doesn't fail. `Failed` raises it by one, and takes nothing.
    fn take(&mut self, buf: &mut [u8]) -> Result<usize, Failed>
        ensures bound { ReadsAtMost result buf.new }
        ensures bytes { ReadConsumes (left self.old) (left self.new) result buf.new }
        ensures beside { beside self.new ≡ beside self.old }
        ensures cause { HasCause (faults self.old) (faults self.new) result };
}
