//! The lines of the input, one after the other.

ghost use Rattle.std.specs.Prelude.{◌≡◌, ◌≤◌, ◌⊎◌, ◌++◌, [], true, false, IfOk, IsErrOf, IsSome, OnOk, Ok, Some, codes, decimal};
ghost use Rattle.sig_outside.specs.Causes.{Rose};
ghost use Rattle.sig_outside.specs.Reading.{IsOpen};
ghost use Rattle.sig_lines.specs.Status.{status_of};

use crate::answering::{Answering, answered, no_case};
use sig_json::limits::SCRIPT_LINE_BYTES;
use sig_json::{Bytes, Memory};
use sig_outside::{Line, LineFault, Lines, PutFault, Sink, Source, put_all};
use std::alloc::Global;

/// Why a run ended before the end of its input.
#[derive(Clone, Copy, PartialEq, Eq)]
pub enum RunFault {
    /// The input failed.
    Input,
    /// The output failed, or took nothing.
    Output,
    /// Out of memory.
    Memory,
    /// 2^62 bytes of the input were read.
    Full,
}

/// Answers the lines of the input, and gives the exit status: 0 at the end of the input, 3 where it failed, 4 where the
/// output did, 9 where memory runs out.
pub fn run<A: Answering, I: Source, O: Sink>(
    alloc: Global,
    program: &mut A,
    input: &mut I,
    output: &mut O,
) -> u8
    ensures whole { result ≡ 0 → IsSome (I.left input.old) → I.left input.new ≡ Some [] }
    ensures input { result ≡ 3 → Rose (I.faults input.old) (I.faults input.new) }
    ensures output { result ≡ 4 → Rose (O.faults output.old) (O.faults output.new) ⊎ Rose (O.stalls output.old) (O.stalls output.new) }
{
    let outcome = answer_lines(alloc, program, input, output);
    status(&outcome)
}

fn status(outcome: &Result<(), RunFault>) -> u8
    ensures { result ≡ status_of outcome.now }
{
    match outcome {
        Ok(()) => 0,
        Err(RunFault::Input) => 3,
        Err(RunFault::Output) => 4,
        Err(RunFault::Memory) => 9,
        Err(RunFault::Full) => 11,
    }
}

fn answer_lines<A: Answering, I: Source, O: Sink>(
    alloc: Global,
    program: &mut A,
    input: &mut I,
    output: &mut O,
) -> Result<(), RunFault>
    ensures whole { OnOk result (IsSome (I.left input.old) → I.left input.new ≡ Some []) }
    ensures input { IsErrOf result RunFault.Input → Rose (I.faults input.old) (I.faults input.new) }
    ensures output { IsErrOf result RunFault.Output → Rose (O.faults output.old) (O.faults output.new) ⊎ Rose (O.stalls output.old) (O.stalls output.new) }
{
    let mut reader = Lines::new(alloc);
    for _ in 0..u64::MAX {
        match next_line(alloc, program, &mut reader, input, output) {
            Ok(true) => {}
            Ok(false) => return Ok(()),
            Err(fault) => return Err(fault),
        }
    }
    // No input has so many lines: its bytes end before.
    Err(RunFault::Full)
}

// Answers the next line, and says whether there was one.
fn next_line<A: Answering, I: Source, O: Sink>(
    alloc: Global,
    program: &mut A,
    reader: &mut Lines,
    input: &mut I,
    output: &mut O,
) -> Result<bool, RunFault>
    requires { IsOpen reader.old }
    ensures open { OnOk result (IsOpen reader.new) }
    ensures told { OnOk result (IsSome (I.left input.old) → IsSome (I.left input.new)) }
    ensures end { result ≡ Ok false → IsSome (I.left input.old) → I.left input.new ≡ Some [] }
    ensures input { IsErrOf result RunFault.Input → Rose (I.faults input.old) (I.faults input.new) }
    ensures output { IsErrOf result RunFault.Output → Rose (O.faults output.old) (O.faults output.new) ⊎ Rose (O.stalls output.old) (O.stalls output.new) }
    ensures later { I.faults input.old ≤ I.faults input.new }
    ensures output_later { O.faults output.old ≤ O.faults output.new }
    ensures flows { OnOk result (O.stalls output.new ≡ O.stalls output.old) }
{
    match reader.next(input, SCRIPT_LINE_BYTES) {
        Ok(Line::Text { number, bytes }) => {
            let answer = answered(alloc, program, bytes.as_slice());
            put_answer(alloc, number, answer, output)
        }
        Ok(Line::Long { number }) => put_answer(alloc, number, no_case(alloc), output),
        Ok(Line::End) => Ok(false),
        Err(LineFault::Failed) => Err(RunFault::Input),
        Err(LineFault::Endless(_)) => Err(RunFault::Full),
        Err(LineFault::Memory) => Err(RunFault::Memory),
    }
}

// Puts the line's number, a space and the answer, where there is one.
fn put_answer<O: Sink>(
    alloc: Global,
    number: u64,
    answer: Result<Option<Bytes>, Memory>,
    output: &mut O,
) -> Result<bool, RunFault>
    ensures more { IfOk result (λ more. more ≡ true) }
    ensures input { IsErrOf result RunFault.Input → ⊥ }
    ensures output { IsErrOf result RunFault.Output → Rose (O.faults output.old) (O.faults output.new) ⊎ Rose (O.stalls output.old) (O.stalls output.new) }
    ensures later { O.faults output.old ≤ O.faults output.new }
    ensures flows { OnOk result (O.stalls output.new ≡ O.stalls output.old) }
{
    let Ok(answer) = answer else {
        return Err(RunFault::Memory);
    };
    let Some(answer) = answer else {
        return Ok(true);
    };
    let Ok(line) = answer_line(alloc, number, answer.as_slice()) else {
        return Err(RunFault::Memory);
    };
    match put_all(output, line.as_slice()) {
        Ok(()) => Ok(true),
        Err(PutFault::Failed) => Err(RunFault::Output),
        Err(PutFault::Stuck) => Err(RunFault::Output),
    }
}

fn answer_line(alloc: Global, number: u64, answer: &[u8]) -> Result<Bytes, Memory>
    ensures { IfOk result (λ line. line ≡ decimal number ++ codes " " ++ answer.now ++ codes "\n") }
{
    let front = format!(in alloc; "{number} ")?;
    let mut line = Bytes::of(alloc, front.as_str().as_bytes())?;
    line.add(answer)?;
    line.add(b"\n")?;
    Ok(line)
}
