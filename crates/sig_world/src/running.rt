//! A script, from its first line to what is printed at the end.

ghost use Rattle.std.specs.Prelude.{IfSome};
ghost use Rattle.sig_schedules.specs.Replay.{replay_telling};
ghost use Rattle.sig_command.specs.Moment.{moment};
ghost use Rattle.sig_command.specs.Telling.{WhyEnded, Wrote};

use crate::replayer::Replayer;
use sig_command::{LinesEnd, tell_all};
use sig_json::Memory;
use sig_outside::{Sink, Source};
use std::alloc::Global;

/// Runs a transmitter's node and a receiver's over new stores in memory, under the script that the input is. It prints what
/// each line does, and at the end the session table and what each stream owes.
///
/// `Line` comes exactly where a line that is reached is refused, and names it; `Full` where a line needs a number above
/// 2^62, or once 2^62 bytes were read; `Input` and `Output` by the faults of both.
pub fn replay<I: Source, O: Sink>(alloc: Global, input: &mut I, output: &mut O) -> LinesEnd
    ensures cause { WhyEnded replay_telling (moment (I.left input.old) (I.faults input.old) (O.written output.old) (O.faults output.old) (O.stalls output.old))
        (moment (I.left input.new) (I.faults input.new) (O.written output.new) (O.faults output.new) (O.stalls output.new)) result }
    ensures text { IfSome (I.left input.old) (λ told. Wrote replay_telling told (moment (I.left input.old) (I.faults input.old) (O.written output.old) (O.faults output.old) (O.stalls output.old))
        (moment (I.left input.new) (I.faults input.new) (O.written output.new) (O.faults output.new) (O.stalls output.new)) result) }
{
    match Replayer::new(alloc) {
        Ok(mut replayer) => {
            let ending = tell_all(alloc, &mut replayer, input, output);
            replayer.end();
            ending
        }
        Err(Memory) => LinesEnd::Memory,
    }
}
