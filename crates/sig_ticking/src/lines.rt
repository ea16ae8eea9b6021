//! One tick a line, from the first line of the input to its end.

ghost use Rattle.std.specs.Prelude.{◌≡◌, ◌≤◌, ◌+◌, ◌++◌, List, [], None, Err, false, IfErr, IfOk, OnOk};
ghost use Rattle.sig_command.specs.Moment.{Moment, moment, output_state};
ghost use Rattle.sig_courier.specs.Schedule.{IsLogged};
ghost use Rattle.sig_courier.specs.declared.attempt.Attempt.{Attempt};
ghost use Rattle.sig_json.specs.Answers.{result_map};
ghost use Rattle.sig_json.specs.declared.limits.TheConstants.{LAST_NUMBER};
ghost use Rattle.sig_opening.specs.Ends.{BreaksBy};
ghost use Rattle.sig_outside.specs.Reading.{IsOpen};
ghost use Rattle.sig_txnode.specs.Node.{files_told};
ghost use Rattle.sig_ticking.specs.Ends.{fails_by, of_fault};
ghost use Rattle.sig_ticking.specs.Lines.{GoesOn, MakesTicks, PutsText, PutsTick, is_last};
ghost use Rattle.sig_ticking.specs.Texts.{attempts_text};
ghost use Rattle.sig_ticking.specs.Ticks.{Between, IsTickOf, Tick, with_node};

use crate::CourierEnd;
use crate::text::text_of;
use sig_courier::{Attempt, Schedule};
use sig_journal::NodeFault;
use sig_json::{Bytes, Items};
use sig_links::Side;
use sig_outside::{Disk, Line, Lines, Sink, Source, put_all};
use sig_terms::Rules;
use sig_tick::tick;
use sig_txnode::TxNode;
use std::alloc::Global;
use std::sync::Wait;

// How many bytes of a line are kept: none, since it may hold anything.
const ROOM: usize = 0;

/// Makes one tick over a node that isn't broken for each line of the input, whatever it holds, until the input ends; and puts
/// what each attempted before the next line is asked for.
///
/// The schedule begins empty. It ends with the input, with the first fault of the input, of the output or of a tick, and where
/// memory runs out. What was settled until then stays.
pub fn tick_lines<R: Wait, D: Disk, S: Side, I: Source, O: Sink>(
    alloc: Global,
    rt: &R,
    node: &mut TxNode<D>,
    rules: &Rules,
    side: &mut S,
    input: &mut I,
    output: &mut O,
) -> CourierEnd
    requires whole { node.old.store.broken_at ≡ None }
    requires rules { rules.now ≡ node.old.rules }
    ensures made { (log : List Attempt) × MakesTicks rules.now result (with_node D.told node.old (S.view side.old) []) (with_node D.told node.new (S.view side.new) log)
        (moment (I.left input.old) (I.faults input.old) (O.written output.old) (O.faults output.old) (O.stalls output.old)) (moment (I.left input.new) (I.faults input.new) (O.written output.new) (O.faults output.new) (O.stalls output.new)) }
    ensures breaks { BreaksBy (fails_by result) node.new.store.broken_at }
    ensures files { files_told D.told node.new ≡ files_told D.told node.old }
{
    let mut schedule = Schedule::new(alloc);
    let mut reader = Lines::new(alloc);
    for line in 0..u64::MAX {
        match tick_line(
            alloc,
            rt,
            node,
            rules,
            &mut schedule,
            side,
            line,
            &mut reader,
            input,
            output,
        ) {
            Ok(()) => {}
            Err(end) => return end,
        }
    }
    // Each line raises the reader's number, which is at most `LAST_NUMBER`.
    unreachable!()
}

// Makes the tick of the next line, after so many. At the end of the input the end is `Done`.
fn tick_line<R: Wait, D: Disk, S: Side, I: Source, O: Sink>(
    alloc: Global,
    rt: &R,
    node: &mut TxNode<D>,
    rules: &Rules,
    schedule: &mut Schedule,
    side: &mut S,
    before: u64,
    reader: &mut Lines,
    input: &mut I,
    output: &mut O,
) -> Result<(), CourierEnd>
    requires whole { node.old.store.broken_at ≡ None }
    requires rules { rules.now ≡ node.old.rules }
    requires logged { (log : List Attempt) × IsLogged schedule.old log }
    requires open { IsOpen reader.old }
    requires counted { reader.old.number ≡ before }
    ensures stays { OnOk result (IsOpen reader.new) }
    ensures number { OnOk result (reader.new.number ≡ before + 1) }
    ensures bound { OnOk result (reader.new.number ≤ LAST_NUMBER) }
    ensures rules_same { node.new.rules ≡ node.old.rules }
    ensures files { files_told D.told node.new ≡ files_told D.told node.old }
    ensures whole { OnOk result (node.new.store.broken_at ≡ None) }
    ensures breaks { IfErr result (λ end. BreaksBy (fails_by end) node.new.store.broken_at) }
    ensures goes { OnOk result ((log : List Attempt) (old : Between) (start : Moment) → IsLogged schedule.old log
        → GoesOn rules.now before old (with_node D.told node.old (S.view side.old) log) reader.old start (moment (I.left input.old) (I.faults input.old) (O.written output.old) (O.faults output.old) (O.stalls output.old))
        → (more : List Attempt) × IsLogged schedule.new (log ++ more)
        × GoesOn rules.now (before + 1) old (with_node D.told node.new (S.view side.new) (log ++ more)) reader.new start (moment (I.left input.new) (I.faults input.new) (O.written output.new) (O.faults output.new) (O.stalls output.new))) }
    ensures stops { IfErr result (λ end. (log : List Attempt) (old : Between) (start : Moment) → IsLogged schedule.old log
        → GoesOn rules.now before old (with_node D.told node.old (S.view side.old) log) reader.old start (moment (I.left input.old) (I.faults input.old) (O.written output.old) (O.faults output.old) (O.stalls output.old))
        → (more : List Attempt)
        × MakesTicks rules.now end old (with_node D.told node.new (S.view side.new) (log ++ more)) start (moment (I.left input.new) (I.faults input.new) (O.written output.new) (O.faults output.new) (O.stalls output.new))) }
{
    match reader.next(input, ROOM) {
        Ok(line) if is_end(&line) => Err(CourierEnd::Done),
        Ok(_) => tick_once(alloc, rt, node, rules, schedule, side, before + 1, output),
        Err(fault) => Err(CourierEnd::of_line(fault)),
    }
}

// Whether there is no further line.
fn is_end(line: &Line) -> bool
    ensures { result ≡ is_last line.now }
{
    matches!(line, Line::End)
}

// Makes the tick of a number, and puts what it attempted.
fn tick_once<R: Wait, D: Disk, S: Side, O: Sink>(
    alloc: Global,
    rt: &R,
    node: &mut TxNode<D>,
    rules: &Rules,
    schedule: &mut Schedule,
    side: &mut S,
    number: u64,
    output: &mut O,
) -> Result<(), CourierEnd>
    requires whole { node.old.store.broken_at ≡ None }
    requires rules { rules.now ≡ node.old.rules }
    requires logged { (log : List Attempt) × IsLogged schedule.old log }
    ensures rules_same { node.new.rules ≡ node.old.rules }
    ensures files { files_told D.told node.new ≡ files_told D.told node.old }
    ensures whole { OnOk result (node.new.store.broken_at ≡ None) }
    ensures breaks { IfErr result (λ end. BreaksBy (fails_by end) node.new.store.broken_at) }
    ensures made { (log : List Attempt) → IsLogged schedule.old log
        → (tick : Tick) × IsLogged schedule.new (log ++ tick.attempts)
        × IsTickOf rules.now tick (with_node D.told node.old (S.view side.old) log) (with_node D.told node.new (S.view side.new) (log ++ tick.attempts))
        × PutsTick number tick.attempts tick.end result (output_state (O.written output.old) (O.faults output.old) (O.stalls output.old)) (output_state (O.written output.new) (O.faults output.new) (O.stalls output.new)) }
{
    let made = tick(alloc, rt, node, schedule, rules, side);
    match node.broken_at() {
        None => put_made(alloc, number, made, output),
        Some(_) => Err(CourierEnd::StoreFailed),
    }
}

// Puts what a tick of a number attempted, which ended so.
fn put_made<O: Sink>(
    alloc: Global,
    number: u64,
    made: Result<Items<Attempt>, NodeFault>,
    output: &mut O,
) -> Result<(), CourierEnd>
    ensures puts { (attempts : List Attempt) → IfOk made (λ given. given ≡ attempts) → PutsTick number attempts (result_map (λ given. tt) made) result (output_state (O.written output.old) (O.faults output.old) (O.stalls output.old)) (output_state (O.written output.new) (O.faults output.new) (O.stalls output.new)) }
    ensures fault { IfErr made (λ fault. result ≡ Err (of_fault fault)) }
    ensures stops { IfOk made (λ given. IfErr result (λ end. fails_by end ≡ false)) }
{
    match made {
        Ok(attempts) => put_attempts(alloc, number, attempts.as_slice(), output),
        Err(fault) => Err(CourierEnd::of_fault(fault)),
    }
}

// Puts the lines of these attempts of the tick of a number.
fn put_attempts<O: Sink>(
    alloc: Global,
    number: u64,
    attempts: &[Attempt],
    output: &mut O,
) -> Result<(), CourierEnd>
    ensures { PutsText result (attempts_text number attempts.now) (output_state (O.written output.old) (O.faults output.old) (O.stalls output.old)) (output_state (O.written output.new) (O.faults output.new) (O.stalls output.new)) }
{
    match text_of(alloc, number, attempts) {
        Ok(text) => put_text(text, output),
        Err(_) => Err(CourierEnd::Memory),
    }
}

// Puts a text.
fn put_text<O: Sink>(text: Bytes, output: &mut O) -> Result<(), CourierEnd>
    ensures { PutsText result text (output_state (O.written output.old) (O.faults output.old) (O.stalls output.old)) (output_state (O.written output.new) (O.faults output.new) (O.stalls output.new)) }
{
    match put_all(output, text.as_slice()) {
        Ok(()) => Ok(()),
        Err(_) => Err(CourierEnd::OutputFailed),
    }
}
