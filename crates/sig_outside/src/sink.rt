ghost use Rattle.std.specs.Prelude.{◌≡◌, ◌≤◌, ℕ, List, Option, length, IfOk, OnErr, OnOk, IsErrOf};
ghost use Rattle.std.specs.Io.KnownBytes.{WriteAppends, Appends};
ghost use Rattle.sig_outside.specs.Causes.{AppendsPrefix, Beside, HasCause, Raised, Stalls};

use crate::Failed;
use thiserror::Error;

/// What takes bytes.
///
/// Its meanings: `written` is what it took, where the sink tells it; `faults` counts the calls that failed and `stalls`
/// those that took nothing of a piece that isn't empty, each once (both stand at 2^64 - 1); `beside` is the other
/// direction of a link, and nothing of any other sink.
pub trait Sink {
    ghost written: { Self → Option (List ℕ) };

    ghost beside: { Self → Beside };

    ghost faults: { Self → ℕ };

    ghost stalls: { Self → ℕ };

    /// Takes a prefix of the bytes, and answers how long it is. The count of faults stays where a call doesn't fail.
    /// `Failed` raises it by one, and takes nothing.
    fn put(&mut self, bytes: &[u8]) -> Result<usize, Failed>
        ensures bound { IfOk result (λ n. n ≤ length bytes.now) }
        ensures bytes { WriteAppends (written self.old) (written self.new) result bytes.now }
        ensures beside { beside self.new ≡ beside self.old }
        ensures stalls { IfOk result (λ n. Stalls (stalls self.old) (stalls self.new) n bytes.now) }
        ensures flows { OnErr result (stalls self.new ≡ stalls self.old) }
        ensures cause { HasCause (faults self.old) (faults self.new) result };
}

/// Why not all bytes were put.
#[derive(Clone, Copy, Debug, PartialEq, Eq, Error)]
pub enum PutFault {
    /// The sink failed.
    #[error("the output failed")]
    Failed,
    /// The sink took nothing of a piece that isn't empty.
    #[error("the output takes nothing")]
    Stuck,
}

/// Puts all bytes, in as many calls as the sink wants.
///
/// `Failed` comes exactly where a call failed, and `Stuck` exactly where one took nothing of a piece that isn't empty: the
/// one count is raised by one, and the other stays. After either a prefix of the bytes is written.
pub fn put_all<O: Sink>(sink: &mut O, bytes: &[u8]) -> Result<(), PutFault>
    ensures all { OnOk result (Appends (O.written sink.old) (O.written sink.new) bytes.now) }
    ensures prefix { OnErr result (AppendsPrefix (O.written sink.old) (O.written sink.new) bytes.now) }
    ensures beside { O.beside sink.new ≡ O.beside sink.old }
    ensures later { O.faults sink.old ≤ O.faults sink.new }
    ensures failed { IsErrOf result PutFault.Failed → Raised (O.faults sink.old) (O.faults sink.new) }
    ensures steady { (IsErrOf result PutFault.Failed → ⊥) → O.faults sink.new ≡ O.faults sink.old }
    ensures stuck { IsErrOf result PutFault.Stuck → Raised (O.stalls sink.old) (O.stalls sink.new) }
    ensures flows { (IsErrOf result PutFault.Stuck → ⊥) → O.stalls sink.new ≡ O.stalls sink.old }
{
    let mut rest = bytes;
    while !rest.is_empty() {
        match sink.put(rest) {
            Ok(0) => return Err(PutFault::Stuck),
            Ok(count) => rest = rest.split_at(count).1,
            Err(_) => return Err(PutFault::Failed),
        }
    }
    Ok(())
}
