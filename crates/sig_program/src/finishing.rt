//! The status of a run, and its last line.

ghost use Rattle.std.specs.Prelude.{◌≡◌, ◌≤◌, ◌++◌, codes, decimal, length};
ghost use Rattle.sig_command.specs.Moment.{output_state};
ghost use Rattle.sig_program.specs.Ends.{Finished, last_line, status_of};

use crate::ending::Ending;
use arrayvec::ArrayString;
use itoa::Buffer;
use sig_command::{LinesEnd, Stop};
use sig_outside::{Sink, put_all};

/// The exit status of an ending.
pub fn status(ending: Ending) -> u8
    ensures { result ≡ status_of ending }
{
    match ending {
        Ending::Usage => 1,
        Ending::Ran(end) => match end {
            LinesEnd::Done => 0,
            LinesEnd::Stopped(Stop::Line(_)) => 2,
            LinesEnd::Stopped(Stop::Full(_)) => 11,
            LinesEnd::Input => 3,
            LinesEnd::Output => 4,
            LinesEnd::Memory => 9,
        },
    }
}

/// Puts the last line of an ending, and answers how the run ends then. It takes no memory.
pub fn finish<O: Sink>(ending: Ending, output: &mut O) -> Ending
    ensures { Finished ending (output_state (O.written output.old) (O.faults output.old) (O.stalls output.old)) (output_state (O.written output.new) (O.faults output.new) (O.stalls output.new)) result }
{
    let Ending::Ran(end) = ending else {
        return put_last(ending, "signals: usage\n", output);
    };
    match end {
        LinesEnd::Done | LinesEnd::Output => ending,
        LinesEnd::Stopped(Stop::Line(number)) => {
            put_last(ending, numbered("signals: line ", number).as_str(), output)
        }
        LinesEnd::Stopped(Stop::Full(number)) => {
            put_last(ending, numbered("signals: full ", number).as_str(), output)
        }
        LinesEnd::Input => put_last(ending, "signals: input failed\n", output),
        LinesEnd::Memory => put_last(ending, "signals: memory\n", output),
    }
}

fn put_last<O: Sink>(ending: Ending, line: &str, output: &mut O) -> Ending
    requires line { line.now ≡ last_line ending }
    requires other { ending ≡ Ending.Ran LinesEnd.Output → ⊥ }
    ensures { Finished ending (output_state (O.written output.old) (O.faults output.old) (O.stalls output.old)) (output_state (O.written output.new) (O.faults output.new) (O.stalls output.new)) result }
{
    match put_all(output, line.as_bytes()) {
        Ok(()) => ending,
        Err(_) => Ending::Ran(LinesEnd::Output),
    }
}

/// A line that ends with a number.
pub fn numbered(name: &str, number: u64) -> ArrayString<64>
    requires { length name.now ≤ 20 }
    ensures { result.bytes ≡ name.now ++ decimal number ++ codes "\n" }
{
    let mut digits = Buffer::new();
    let mut line = ArrayString::new();
    line.push_str(name);
    line.push_str(digits.format(number));
    line.push_str("\n");
    line
}
