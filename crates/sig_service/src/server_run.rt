//! A run of `serve` or `receive`: the store is served, and the last line is put.

ghost use Rattle.std.specs.Prelude.{◌≡◌};
ghost use Rattle.sig_command.specs.Moment.{output_state};
ghost use Rattle.sig_service.specs.LastLine.{PutLast};
ghost use Rattle.sig_service.specs.Outside.{outside_state};
ghost use Rattle.sig_service.specs.ServerRuns.{ServedSo, ServerRan, last_line, status_of};

use crate::asking::{Server, StoreAsk};
use crate::last_line::{put_damaged, put_last, put_last_of};
use itoa::Buffer;
use sig_links::Outside;
use sig_outside::Sink;
use sig_program::numbered;
use sig_receive::receive;
use sig_serve::{Differ, ServeEnd, serve};
use std::alloc::Global;
use std::sync::Wait;
use std::thread::Threads;

// Serves a store as it is asked for, puts the last line, and answers the exit status.
pub(crate) fn run_server<R: Threads + Wait + Sync, X: Outside, O: Sink>(
    alloc: Global,
    rt: &R,
    server: Server,
    over: StoreAsk<'_>,
    output: &mut O,
    outside: &mut X,
) -> u8
    ensures ends { ServerRan (record { server = server; over = record { settings = over.entry.settings.now; store = over.entry.store.now; count = over.entry.count } })
        (outside_state X.settings_of X.held X.there X.doors X.doors_back X.sides X.sides_back X.settings_faults X.store_faults X.network_faults outside.old)
        (outside_state X.settings_of X.held X.there X.doors X.doors_back X.sides X.sides_back X.settings_faults X.store_faults X.network_faults outside.new)
        (output_state (O.written output.old) (O.faults output.old) (O.stalls output.old)) (output_state (O.written output.new) (O.faults output.new) (O.stalls output.new)) result }
    ensures sides { (X.sides outside.new ≡ X.sides outside.old) × (X.sides_out outside.new ≡ X.sides_out outside.old) × (X.sides_back outside.new ≡ X.sides_back outside.old) }
{
    let end = served(alloc, rt, server, over, outside);
    close(end, output)
}

// Serves a store by its server.
fn served<R: Threads + Wait + Sync, X: Outside>(
    alloc: Global,
    rt: &R,
    server: Server,
    over: StoreAsk<'_>,
    outside: &mut X,
) -> ServeEnd
    ensures so { ServedSo server (record { settings = over.entry.settings.now; store = over.entry.store.now; count = over.entry.count }) result
        (outside_state X.settings_of X.held X.there X.doors X.doors_back X.sides X.sides_back X.settings_faults X.store_faults X.network_faults outside.old)
        (outside_state X.settings_of X.held X.there X.doors X.doors_back X.sides X.sides_back X.settings_faults X.store_faults X.network_faults outside.new) }
    ensures sides { (X.sides outside.new ≡ X.sides outside.old) × (X.sides_out outside.new ≡ X.sides_out outside.old) × (X.sides_back outside.new ≡ X.sides_back outside.old) }
{
    match server {
        Server::Transmitter => serve(alloc, rt, over.settings, over.store, over.count, outside),
        Server::Receiver => receive(alloc, rt, over.settings, over.store, over.count, outside),
    }
}

// Puts the last line of an ending, and answers the exit status.
fn close<O: Sink>(end: ServeEnd, output: &mut O) -> u8
    ensures { PutLast (status_of end) (last_line end) (output_state (O.written output.old) (O.faults output.old) (O.stalls output.old)) (output_state (O.written output.new) (O.faults output.new) (O.stalls output.new)) result }
{
    match end {
        ServeEnd::Done => 0,
        ServeEnd::SettingsFailed => put_last(3, "signals: input failed\n", output),
        ServeEnd::Refused(member) => {
            put_last_of(10, "signals: settings ", member.as_str(), "\n", output)
        }
        ServeEnd::NoStore => put_last(6, "signals: no store\n", output),
        ServeEnd::StoreFailed => put_last(5, "signals: store failed\n", output),
        ServeEnd::Damaged { file, at } => put_damaged(file, at, output),
        ServeEnd::NetworkFailed => put_last(7, "signals: network failed\n", output),
        ServeEnd::Disagree(differ) => put_disagree(differ, output),
        ServeEnd::Memory => put_last(9, "signals: memory\n", output),
    }
}

// Puts the last line where this differs.
fn put_disagree<O: Sink>(differ: Differ, output: &mut O) -> u8
    ensures { PutLast 8 (last_line (ServeEnd.Disagree differ)) (output_state (O.written output.old) (O.faults output.old) (O.stalls output.old)) (output_state (O.written output.new) (O.faults output.new) (O.stalls output.new)) result }
{
    match differ {
        Differ::Turn { link, place } => {
            let mut digits = Buffer::new();
            let link = digits.format(link);
            let place = numbered(" place ", place);
            put_last_of(8, "signals: disagree link ", link, place.as_str(), output)
        }
    }
}
