//! A command over the lines of its input, from the first line to the end.

ghost use Rattle.std.specs.Prelude.{◌≡◌, ◌≤◌, ◌+◌, ℕ, List, Option, [], false, IfErr, IfSome, OnOk, option_copied};
ghost use Rattle.sig_json.specs.declared.limits.TheConstants.{LAST_NUMBER};
ghost use Rattle.sig_outside.specs.Lines.{has_lf};
ghost use Rattle.sig_outside.specs.Reading.{IsOpen};
ghost use Rattle.sig_command.specs.Moment.{Calm, InputState, Moment, OutputState, moment, output_state};
ghost use Rattle.sig_command.specs.Telling.{TakesLine, WhyEnded, Wrote};
ghost use Rattle.sig_command.specs.Progress.{IsStop, LinesEnded, NotTaken, Standing, Stood, Telt, Untold, ending_by};

use crate::gathering::{put_gathered, put_if};
use crate::{LinesEnd, Stop, Teller};
use sig_json::Bytes;
use sig_outside::{Line, LineFault, Lines, Sink, Source};
use std::alloc::Global;

/// Tells a command the lines of the input, puts what it prints, and at the end of the input what follows.
///
/// What is gathered is put before the input is asked for more, where it is much, where the lines stop, and at the end.
pub fn tell_all<T: Teller, I: Source, O: Sink>(
    alloc: Global,
    teller: &mut T,
    input: &mut I,
    output: &mut O,
) -> LinesEnd
    requires { T.stands teller.old [] }
    ensures cause { WhyEnded (T.told teller.old) (moment (I.left input.old) (I.faults input.old) (O.written output.old) (O.faults output.old) (O.stalls output.old))
        (moment (I.left input.new) (I.faults input.new) (O.written output.new) (O.faults output.new) (O.stalls output.new)) result }
    ensures text { IfSome (I.left input.old) (λ told. Wrote (T.told teller.old) told (moment (I.left input.old) (I.faults input.old) (O.written output.old) (O.faults output.old) (O.stalls output.old))
        (moment (I.left input.new) (I.faults input.new) (O.written output.new) (O.faults output.new) (O.stalls output.new)) result) }
{
    let mut gathered = Bytes::new(alloc);
    let ending = tell_lines(alloc, teller, &mut gathered, input, output);
    close(ending, teller, &mut gathered, output)
}

// Tells the lines to the end of the input, or to the first that stops the command.
fn tell_lines<T: Teller, I: Source, O: Sink>(
    alloc: Global,
    teller: &mut T,
    gathered: &mut Bytes,
    input: &mut I,
    output: &mut O,
) -> LinesEnd
    requires new { T.stands teller.old [] }
    requires none { gathered.old ≡ [] }
    ensures told { T.told teller.new ≡ T.told teller.old }
    ensures cause { WhyEnded (T.told teller.old) (moment (I.left input.old) (I.faults input.old) (O.written output.old) (O.faults output.old) (O.stalls output.old))
        (moment (I.left input.new) (I.faults input.new) (O.written output.new) (O.faults output.new) (O.stalls output.new)) result }
    ensures ends { IfSome (I.left input.old) (λ told. LinesEnded (T.told teller.old) (T.stands teller.new) told (I.left input.new) gathered.new (O.written output.old) (O.written output.new) result) }
{
    let mut reader = Lines::new(alloc);
    for line in 0..u64::MAX {
        match tell_line(teller, line, &mut reader, gathered, input, output) {
            Ok(()) => {}
            Err(ending) => return ending,
        }
    }
    // Each line raises the reader's number, which is at most `LAST_NUMBER`.
    unreachable!()
}

// Tells the next line, after so many. At the end of the input the ending is `Done`.
fn tell_line<T: Teller, I: Source, O: Sink>(
    teller: &mut T,
    before: u64,
    reader: &mut Lines,
    gathered: &mut Bytes,
    input: &mut I,
    output: &mut O,
) -> Result<(), LinesEnd>
    requires open { IsOpen reader.old }
    requires counted { reader.old.number ≡ before }
    requires stood { Stood (T.told teller.old) (T.stands teller.old) before }
    ensures told { T.told teller.new ≡ T.told teller.old }
    ensures stays { OnOk result (IsOpen reader.new) }
    ensures number { OnOk result (reader.new.number ≡ before + 1) }
    ensures bound { OnOk result (reader.new.number ≤ LAST_NUMBER) }
    ensures stood { OnOk result (Stood (T.told teller.old) (T.stands teller.new) (before + 1)) }
    ensures calm { OnOk result (Calm (moment (I.left input.old) (I.faults input.old) (O.written output.old) (O.faults output.old) (O.stalls output.old))
        (moment (I.left input.new) (I.faults input.new) (O.written output.new) (O.faults output.new) (O.stalls output.new))) }
    ensures cause { IfErr result (WhyEnded (T.told teller.old) (moment (I.left input.old) (I.faults input.old) (O.written output.old) (O.faults output.old) (O.stalls output.old))
        (moment (I.left input.new) (I.faults input.new) (O.written output.new) (O.faults output.new) (O.stalls output.new))) }
    ensures stands { OnOk result ((told : List ℕ) (earlier : Option (List ℕ))
        → Standing (T.told teller.old) (T.stands teller.old) told reader.old (I.left input.old) gathered.old earlier (O.written output.old)
        → Standing (T.told teller.old) (T.stands teller.new) told reader.new (I.left input.new) gathered.new earlier (O.written output.new)) }
    ensures ends { IfErr result (λ e. (told : List ℕ) (earlier : Option (List ℕ))
        → Standing (T.told teller.old) (T.stands teller.old) told reader.old (I.left input.old) gathered.old earlier (O.written output.old)
        → LinesEnded (T.told teller.old) (T.stands teller.new) told (I.left input.new) gathered.new earlier (O.written output.new) e) }
{
    match put_if(!reader.holds_line(), output, gathered) {
        Ok(()) => tell_next(teller, before, reader, gathered, input),
        Err(_) => Err(LinesEnd::Output),
    }
}

// Tells the next line, after so many. Where no line is held whole, so that the input is asked for more, nothing is
// gathered any more.
fn tell_next<T: Teller, I: Source>(
    teller: &mut T,
    before: u64,
    reader: &mut Lines,
    gathered: &mut Bytes,
    input: &mut I,
) -> Result<(), LinesEnd>
    requires open { IsOpen reader.old }
    requires counted { reader.old.number ≡ before }
    requires stood { Stood (T.told teller.old) (T.stands teller.old) before }
    requires put { has_lf reader.old.kept ≡ false → gathered.old ≡ [] }
    ensures told { T.told teller.new ≡ T.told teller.old }
    ensures stays { OnOk result (IsOpen reader.new) }
    ensures number { OnOk result (reader.new.number ≡ before + 1) }
    ensures bound { OnOk result (reader.new.number ≤ LAST_NUMBER) }
    ensures stood { OnOk result (Stood (T.told teller.old) (T.stands teller.new) (before + 1)) }
    ensures calm { OnOk result (I.faults input.new ≡ I.faults input.old) }
    ensures cause { IfErr result (λ e. (out : OutputState) → WhyEnded (T.told teller.old)
        (record { input = record { left = I.left input.old; faults = I.faults input.old }; output = out })
        (record { input = record { left = I.left input.new; faults = I.faults input.new }; output = out }) e) }
    ensures stands { OnOk result ((told : List ℕ) (earlier now : Option (List ℕ))
        → Standing (T.told teller.old) (T.stands teller.old) told reader.old (I.left input.old) gathered.old earlier now
        → Standing (T.told teller.old) (T.stands teller.new) told reader.new (I.left input.new) gathered.new earlier now) }
    ensures ends { IfErr result (λ e. (told : List ℕ) (earlier now : Option (List ℕ))
        → Standing (T.told teller.old) (T.stands teller.old) told reader.old (I.left input.old) gathered.old earlier now
        → LinesEnded (T.told teller.old) (T.stands teller.new) told (I.left input.new) gathered.new earlier now e) }
{
    match reader.next(input, T::room()) {
        Ok(line) => take_line(teller, before, line, gathered),
        Err(fault) => Err(ending_of(fault)),
    }
}

// Tells a line that the reader gave, after so many.
fn take_line<T: Teller>(
    teller: &mut T,
    before: u64,
    line: Line,
    gathered: &mut Bytes,
) -> Result<(), LinesEnd>
    requires bound { before ≤ LAST_NUMBER }
    requires stood { (given : List (List ℕ)) × T.stands teller.old given }
    ensures told { T.told teller.new ≡ T.told teller.old }
    ensures some { OnOk result (line ≡ Line.End → ⊥) }
    ensures takes { OnOk result (Telt (T.told teller.old) (T.stands teller.old) (T.stands teller.new) T.room before line gathered.old gathered.new) }
    ensures ends { IfErr result (Untold (T.told teller.old) (T.stands teller.old) (T.stands teller.new) T.room before line gathered.old gathered.new) }
{
    match line {
        Line::Text { bytes, .. } => {
            tell_bytes(teller, before + 1, Some(bytes.as_slice()), gathered)
        }
        Line::Long { .. } => tell_bytes(teller, before + 1, None, gathered),
        Line::End => Err(LinesEnd::Done),
    }
}

// Tells the line of a number, none where it is too long.
fn tell_bytes<T: Teller>(
    teller: &mut T,
    number: u64,
    line: Option<&[u8]>,
    gathered: &mut Bytes,
) -> Result<(), LinesEnd>
    requires { (given : List (List ℕ)) × T.stands teller.old given }
    ensures told { T.told teller.new ≡ T.told teller.old }
    ensures takes { OnOk result (TakesLine (T.told teller.old) (T.stands teller.old) (T.stands teller.new) T.room number (option_copied line.entry) gathered.old gathered.new) }
    ensures ends { IfErr result (NotTaken (T.told teller.old) (T.stands teller.old) T.room number (option_copied line.entry) gathered.old gathered.new) }
{
    teller.tell(number, line, gathered)?;
    Ok(())
}

fn ending_of(fault: LineFault) -> LinesEnd
    ensures { result ≡ ending_by fault }
{
    match fault {
        LineFault::Failed => LinesEnd::Input,
        LineFault::Endless(read) => LinesEnd::Stopped(Stop::Full(read)),
        LineFault::Memory => LinesEnd::Memory,
    }
}

// What follows the lines: what the command prints last, at the end of the input; and what is gathered, where the lines
// stopped.
fn close<T: Teller, O: Sink>(
    ending: LinesEnd,
    teller: &T,
    gathered: &mut Bytes,
    output: &mut O,
) -> LinesEnd
    ensures cause { (before : Moment) (input : InputState)
        → WhyEnded (T.told teller.now) before (record { input = input; output = output_state (O.written output.old) (O.faults output.old) (O.stalls output.old) }) ending
        → WhyEnded (T.told teller.now) before (record { input = input; output = output_state (O.written output.new) (O.faults output.new) (O.stalls output.new) }) result }
    ensures text { (told : List ℕ) (before : Moment) (input : InputState)
        → LinesEnded (T.told teller.now) (T.stands teller.now) told input.left gathered.old before.output.written (O.written output.old) ending
        → Wrote (T.told teller.now) told before (record { input = input; output = output_state (O.written output.new) (O.faults output.new) (O.stalls output.new) }) result }
{
    match ending {
        LinesEnd::Done => teller.close(gathered, output),
        LinesEnd::Stopped(_) | LinesEnd::Input => put_rest(ending, teller, gathered, output),
        LinesEnd::Output | LinesEnd::Memory => ending,
    }
}

// Puts what is gathered where the lines stopped.
fn put_rest<T: Teller, O: Sink>(
    ending: LinesEnd,
    _teller: &T,
    gathered: &mut Bytes,
    output: &mut O,
) -> LinesEnd
    requires { IsStop ending }
    ensures cause { (before : Moment) (input : InputState)
        → WhyEnded (T.told _teller.now) before (record { input = input; output = output_state (O.written output.old) (O.faults output.old) (O.stalls output.old) }) ending
        → WhyEnded (T.told _teller.now) before (record { input = input; output = output_state (O.written output.new) (O.faults output.new) (O.stalls output.new) }) result }
    ensures text { (told : List ℕ) (before : Moment) (input : InputState)
        → LinesEnded (T.told _teller.now) (T.stands _teller.now) told input.left gathered.old before.output.written (O.written output.old) ending
        → Wrote (T.told _teller.now) told before (record { input = input; output = output_state (O.written output.new) (O.faults output.new) (O.stalls output.new) }) result }
{
    match put_gathered(output, gathered) {
        Ok(()) => ending,
        Err(_) => LinesEnd::Output,
    }
}
