//! The last line of a run.

ghost use Rattle.std.specs.Prelude.{◌++◌, OnErr, OnOk};
ghost use Rattle.std.specs.Io.KnownBytes.{Appends};
ghost use Rattle.sig_outside.specs.Causes.{AppendsPrefix};
ghost use Rattle.sig_command.specs.Moment.{OutputCalm, OutputStopped, output_state};
ghost use Rattle.sig_service.specs.LastLine.{PutLast};
ghost use Rattle.sig_service.specs.ServerRuns.{damaged_line};

use sig_outside::{PutFault, Sink, put_all};
use sig_program::numbered;

/// Puts a last line, and answers the exit status: this one, or 4 where the output stops.
pub(crate) fn put_last<O: Sink>(status: u8, line: &str, output: &mut O) -> u8
    ensures { PutLast status line.now (output_state (O.written output.old) (O.faults output.old) (O.stalls output.old)) (output_state (O.written output.new) (O.faults output.new) (O.stalls output.new)) result }
{
    match put_all(output, line.as_bytes()) {
        Ok(()) => status,
        Err(_) => 4,
    }
}

/// Puts a last line of three parts, which takes no memory, and answers the exit status likewise.
pub(crate) fn put_last_of<O: Sink>(
    status: u8,
    front: &str,
    middle: &str,
    back: &str,
    output: &mut O,
) -> u8
    ensures { PutLast status (front.now ++ middle.now ++ back.now) (output_state (O.written output.old) (O.faults output.old) (O.stalls output.old)) (output_state (O.written output.new) (O.faults output.new) (O.stalls output.new)) result }
{
    match put_parts(front, middle, back, output) {
        Ok(()) => status,
        Err(_) => 4,
    }
}

/// Puts the last line where a file of the store is damaged there.
pub(crate) fn put_damaged<O: Sink>(file: u8, at: u64, output: &mut O) -> u8
    ensures { PutLast 6 (damaged_line file at) (output_state (O.written output.old) (O.faults output.old) (O.stalls output.old)) (output_state (O.written output.new) (O.faults output.new) (O.stalls output.new)) result }
{
    if file == 0 {
        put_last(6, numbered("signals: damaged a ", at).as_str(), output)
    } else {
        put_last(6, numbered("signals: damaged b ", at).as_str(), output)
    }
}

fn put_parts<O: Sink>(front: &str, middle: &str, back: &str, output: &mut O) -> Result<(), PutFault>
    ensures all { OnOk result (Appends (O.written output.old) (O.written output.new) (front.now ++ middle.now ++ back.now)) }
    ensures prefix { OnErr result (AppendsPrefix (O.written output.old) (O.written output.new) (front.now ++ middle.now ++ back.now)) }
    ensures calm { OnOk result (OutputCalm (output_state (O.written output.old) (O.faults output.old) (O.stalls output.old)) (output_state (O.written output.new) (O.faults output.new) (O.stalls output.new))) }
    ensures stopped { OnErr result (OutputStopped (output_state (O.written output.old) (O.faults output.old) (O.stalls output.old)) (output_state (O.written output.new) (O.faults output.new) (O.stalls output.new))) }
{
    put_all(output, front.as_bytes())?;
    put_all(output, middle.as_bytes())?;
    put_all(output, back.as_bytes())
}
