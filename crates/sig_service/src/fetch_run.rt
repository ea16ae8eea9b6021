//! A run of `fetch`: a transmitter is polled, and the last line is put.

ghost use Rattle.std.specs.Prelude.{◌≡◌};
ghost use Rattle.sig_command.specs.Moment.{output_state};
ghost use Rattle.sig_service.specs.FetchRuns.{FetchRan, counts_line, last_line, status_of};
ghost use Rattle.sig_service.specs.LastLine.{PutLast};
ghost use Rattle.sig_service.specs.Outside.{outside_state};

use crate::asking::StoreAsk;
use crate::last_line::{put_damaged, put_last, put_last_of};
use arrayvec::ArrayString;
use itoa::Buffer;
use sig_links::Outside;
use sig_outside::Sink;
use sig_program::numbered;
use sig_receive::{FetchEnd, Fetched, fetch};
use std::alloc::Global;

// Fetches as it is asked for, puts the last line, and answers the exit status.
pub(crate) fn run_fetch<X: Outside, O: Sink>(
    alloc: Global,
    over: StoreAsk<'_>,
    output: &mut O,
    outside: &mut X,
) -> u8
    ensures ends { FetchRan (record { settings = over.entry.settings.now; store = over.entry.store.now; count = over.entry.count })
        (outside_state X.settings_of X.held X.there X.doors X.doors_back X.sides X.sides_back X.settings_faults X.store_faults X.network_faults outside.old)
        (outside_state X.settings_of X.held X.there X.doors X.doors_back X.sides X.sides_back X.settings_faults X.store_faults X.network_faults outside.new)
        (output_state (O.written output.old) (O.faults output.old) (O.stalls output.old)) (output_state (O.written output.new) (O.faults output.new) (O.stalls output.new)) result }
    ensures doors { (X.doors outside.new ≡ X.doors outside.old) × (X.doors_out outside.new ≡ X.doors_out outside.old) × (X.doors_back outside.new ≡ X.doors_back outside.old) }
{
    let end = fetch(alloc, over.settings, over.store, over.count, outside);
    close(end, output)
}

// Puts the last line of an ending, and answers the exit status.
fn close<O: Sink>(end: FetchEnd, output: &mut O) -> u8
    ensures { PutLast (status_of end) (last_line end) (output_state (O.written output.old) (O.faults output.old) (O.stalls output.old)) (output_state (O.written output.new) (O.faults output.new) (O.stalls output.new)) result }
{
    match end {
        FetchEnd::Done(fetched) => put_last(0, counted(&fetched).as_str(), output),
        FetchEnd::SettingsFailed => put_last(3, "signals: input failed\n", output),
        FetchEnd::Refused(member) => {
            put_last_of(10, "signals: settings ", member.as_str(), "\n", output)
        }
        FetchEnd::NoStore => put_last(6, "signals: no store\n", output),
        FetchEnd::StoreFailed => put_last(5, "signals: store failed\n", output),
        FetchEnd::Damaged { file, at } => put_damaged(file, at, output),
        FetchEnd::NetworkFailed => put_last(7, "signals: network failed\n", output),
        FetchEnd::Full(end) => put_last(11, numbered("signals: full ", end).as_str(), output),
        FetchEnd::Peer(place) => put_last_of(13, "signals: peer ", place.as_str(), "\n", output),
        FetchEnd::Memory => put_last(9, "signals: memory\n", output),
    }
}

// The line of what was fetched, which takes no memory.
fn counted(fetched: &Fetched) -> ArrayString<128>
    ensures { result.bytes ≡ counts_line fetched.now }
{
    let mut digits = Buffer::new();
    let mut line = ArrayString::new();
    line.push_str("rounds ");
    line.push_str(digits.format(fetched.rounds));
    line.push_str(" accepted ");
    line.push_str(digits.format(fetched.accepted));
    line.push_str(" seen ");
    line.push_str(digits.format(fetched.seen));
    line.push_str(" refused ");
    line.push_str(digits.format(fetched.refused));
    line.push_str("\n");
    line
}
