//! A run of `courier`: push streams are tried at each line of the input, and the last line is put.

ghost use Rattle.std.specs.Prelude.{◌≡◌};
ghost use Rattle.sig_command.specs.Moment.{output_state};
ghost use Rattle.sig_service.specs.CourierRuns.{CourierRan, full_line, last_line, status_of};
ghost use Rattle.sig_service.specs.LastLine.{PutLast};
ghost use Rattle.sig_service.specs.Outside.{outside_state};

use crate::asking::CourierAsk;
use crate::last_line::{put_damaged, put_last, put_last_of};
use sig_links::Outside;
use sig_outside::{Sink, Source};
use sig_program::numbered;
use sig_ticking::{CourierEnd, courier};
use std::alloc::Global;
use std::sync::Wait;

// Tries push streams as it is asked for, puts the last line, and answers the exit status.
pub(crate) fn run_courier<R: Wait, X: Outside, I: Source, O: Sink>(
    alloc: Global,
    rt: &R,
    over: CourierAsk<'_>,
    input: &mut I,
    output: &mut O,
    outside: &mut X,
) -> u8
    ensures ends { CourierRan (record { settings = over.entry.settings.now; store = over.entry.store.now })
        (outside_state X.settings_of X.held X.there X.doors X.doors_back X.sides X.sides_back X.settings_faults X.store_faults X.network_faults outside.old)
        (outside_state X.settings_of X.held X.there X.doors X.doors_back X.sides X.sides_back X.settings_faults X.store_faults X.network_faults outside.new)
        (record { left = I.left input.old; faults = I.faults input.old }) (record { left = I.left input.new; faults = I.faults input.new }) (output_state (O.written output.old) (O.faults output.old) (O.stalls output.old)) (output_state (O.written output.new) (O.faults output.new) (O.stalls output.new)) result }
    ensures doors { (X.doors outside.new ≡ X.doors outside.old) × (X.doors_out outside.new ≡ X.doors_out outside.old) × (X.doors_back outside.new ≡ X.doors_back outside.old) }
{
    let end = courier(alloc, rt, over.settings, over.store, input, output, outside);
    close(end, output)
}

// Puts the last line of an ending, and answers the exit status.
fn close<O: Sink>(end: CourierEnd, output: &mut O) -> u8
    ensures { PutLast (status_of end) (last_line end) (output_state (O.written output.old) (O.faults output.old) (O.stalls output.old)) (output_state (O.written output.new) (O.faults output.new) (O.stalls output.new)) result }
{
    match end {
        CourierEnd::Done => 0,
        CourierEnd::SettingsFailed | CourierEnd::InputFailed => {
            put_last(3, "signals: input failed\n", output)
        }
        CourierEnd::Refused(member) => {
            put_last_of(10, "signals: settings ", member.as_str(), "\n", output)
        }
        CourierEnd::NoStore => put_last(6, "signals: no store\n", output),
        CourierEnd::StoreFailed => put_last(5, "signals: store failed\n", output),
        CourierEnd::Damaged { file, at } => put_damaged(file, at, output),
        CourierEnd::OutputFailed => 4,
        CourierEnd::Full(end) => put_full(end, output),
        CourierEnd::Endless(read) => put_full(read, output),
        CourierEnd::Memory => put_last(9, "signals: memory\n", output),
    }
}

// Puts the last line where this number is too great.
fn put_full<O: Sink>(number: u64, output: &mut O) -> u8
    ensures { PutLast 11 (full_line number) (output_state (O.written output.old) (O.faults output.old) (O.stalls output.old)) (output_state (O.written output.new) (O.faults output.new) (O.stalls output.new)) result }
{
    put_last(11, numbered("signals: full ", number).as_str(), output)
}
