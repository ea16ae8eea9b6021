//! A run of `manage`: streams are brought to what is declared, and the last line is put.

ghost use Rattle.std.specs.Prelude.{◌≡◌};
ghost use Rattle.sig_command.specs.Moment.{output_state};
ghost use Rattle.sig_service.specs.LastLine.{PutLast};
ghost use Rattle.sig_service.specs.ManageRuns.{ManageRan, counts_line, last_line, status_of};
ghost use Rattle.sig_service.specs.Outside.{outside_state};

use crate::last_line::{put_last, put_last_of};
use arrayvec::ArrayString;
use itoa::Buffer;
use sig_links::Outside;
use sig_managing::{Counts, ManageEnd, manage};
use sig_outside::Sink;
use std::alloc::Global;

// Manages streams by the settings of this name, puts the last line, and answers the exit status.
pub(crate) fn run_manage<X: Outside, O: Sink>(
    alloc: Global,
    settings: &str,
    output: &mut O,
    outside: &mut X,
) -> u8
    ensures ends { ManageRan settings.now
        (outside_state X.settings_of X.held X.there X.doors X.doors_back X.sides X.sides_back X.settings_faults X.store_faults X.network_faults outside.old)
        (outside_state X.settings_of X.held X.there X.doors X.doors_back X.sides X.sides_back X.settings_faults X.store_faults X.network_faults outside.new)
        (output_state (O.written output.old) (O.faults output.old) (O.stalls output.old)) (output_state (O.written output.new) (O.faults output.new) (O.stalls output.new)) result }
    ensures doors { (X.doors outside.new ≡ X.doors outside.old) × (X.doors_out outside.new ≡ X.doors_out outside.old) × (X.doors_back outside.new ≡ X.doors_back outside.old) }
{
    let end = manage(alloc, settings, output, outside);
    close(end, output)
}

// Puts the last line of an ending, and answers the exit status.
fn close<O: Sink>(end: ManageEnd, output: &mut O) -> u8
    ensures { PutLast (status_of end) (last_line end) (output_state (O.written output.old) (O.faults output.old) (O.stalls output.old)) (output_state (O.written output.new) (O.faults output.new) (O.stalls output.new)) result }
{
    match end {
        ManageEnd::Done(counts) => put_last(0, counted(&counts).as_str(), output),
        ManageEnd::SettingsFailed => put_last(3, "signals: input failed\n", output),
        ManageEnd::Refused(member) => {
            put_last_of(10, "signals: settings ", member.as_str(), "\n", output)
        }
        ManageEnd::NetworkFailed => put_last(7, "signals: network failed\n", output),
        ManageEnd::Peer(place) => put_last_of(13, "signals: peer ", place.as_str(), "\n", output),
        ManageEnd::OutputFailed => 4,
        ManageEnd::Memory => put_last(9, "signals: memory\n", output),
    }
}

// The line of what was changed, which takes no memory.
fn counted(counts: &Counts) -> ArrayString<128>
    ensures { result.bytes ≡ counts_line counts.now }
{
    let mut digits = Buffer::new();
    let mut line = ArrayString::new();
    line.push_str("created ");
    line.push_str(digits.format(counts.created));
    line.push_str(" replaced ");
    line.push_str(digits.format(counts.replaced));
    line.push_str(" deleted ");
    line.push_str(digits.format(counts.deleted));
    line.push_str(" status ");
    line.push_str(digits.format(counts.status));
    line.push_str("\n");
    line
}
