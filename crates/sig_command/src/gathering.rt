//! What a command prints is gathered, and put in large pieces.

ghost use Rattle.std.specs.Prelude.{◌≡◌, ◌<◌, ◌++◌, ℕ, List, [], IsErrOf, IsTrue, OnErr, OnOk, length};
ghost use Rattle.std.specs.Io.KnownBytes.{Appends};
ghost use Rattle.sig_json.specs.declared.limits.TheConstants.{GATHERED_BYTES};
ghost use Rattle.sig_outside.specs.Causes.{AppendsPrefix, Raised};
ghost use Rattle.sig_command.specs.Moment.{OutputCalm, OutputStopped, output_state};

use sig_json::Bytes;
use sig_json::limits::GATHERED_BYTES;
use sig_outside::{PutFault, Sink, put_all};

/// Puts all that is gathered. After a fault a prefix of it is written.
pub fn put_gathered<O: Sink>(output: &mut O, gathered: &mut Bytes) -> Result<(), PutFault>
    ensures all { OnOk result (Appends (O.written output.old) (O.written output.new) gathered.old) }
    ensures none { OnOk result (gathered.new ≡ []) }
    ensures prefix { OnErr result (AppendsPrefix (O.written output.old) (O.written output.new) gathered.old) }
    ensures calm { OnOk result (OutputCalm (output_state (O.written output.old) (O.faults output.old) (O.stalls output.old)) (output_state (O.written output.new) (O.faults output.new) (O.stalls output.new))) }
    ensures stopped { OnErr result (OutputStopped (output_state (O.written output.old) (O.faults output.old) (O.stalls output.old)) (output_state (O.written output.new) (O.faults output.new) (O.stalls output.new))) }
    ensures failed { IsErrOf result PutFault.Failed → Raised (O.faults output.old) (O.faults output.new) }
    ensures stuck { IsErrOf result PutFault.Stuck → Raised (O.stalls output.old) (O.stalls output.new) }
{
    match put_all(output, gathered.as_slice()) {
        Ok(()) => {
            gathered.clear();
            Ok(())
        }
        Err(PutFault::Failed) => Err(PutFault::Failed),
        Err(PutFault::Stuck) => Err(PutFault::Stuck),
    }
}

/// Puts all that is gathered where it is due: where the input is about to be asked for more, or where it is much.
pub fn put_if<O: Sink>(asked: bool, output: &mut O, gathered: &mut Bytes) -> Result<(), PutFault>
    ensures all { OnOk result ((text : List ℕ) × (text ++ gathered.new ≡ gathered.old) × Appends (O.written output.old) (O.written output.new) text) }
    ensures emptied { OnOk result (IsTrue asked → gathered.new ≡ []) }
    ensures few { OnOk result (length gathered.new < GATHERED_BYTES) }
    ensures prefix { OnErr result (AppendsPrefix (O.written output.old) (O.written output.new) gathered.old) }
    ensures calm { OnOk result (OutputCalm (output_state (O.written output.old) (O.faults output.old) (O.stalls output.old)) (output_state (O.written output.new) (O.faults output.new) (O.stalls output.new))) }
    ensures stopped { OnErr result (OutputStopped (output_state (O.written output.old) (O.faults output.old) (O.stalls output.old)) (output_state (O.written output.new) (O.faults output.new) (O.stalls output.new))) }
    ensures failed { IsErrOf result PutFault.Failed → Raised (O.faults output.old) (O.faults output.new) }
    ensures stuck { IsErrOf result PutFault.Stuck → Raised (O.stalls output.old) (O.stalls output.new) }
{
    if asked || gathered.as_slice().len() >= GATHERED_BYTES {
        put_gathered(output, gathered)
    } else {
        Ok(())
    }
}
