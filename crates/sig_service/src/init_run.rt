//! A run of `init`: the store is made, and the last line is put.

ghost use Rattle.std.specs.Prelude.{◌≡◌};
ghost use Rattle.sig_command.specs.Moment.{output_state};
ghost use Rattle.sig_service.specs.InitRuns.{InitRan, last_line, status_of};
ghost use Rattle.sig_service.specs.LastLine.{PutLast};

use crate::last_line::put_last;
use sig_init::{InitEnd, init};
use sig_journal::Kind;
use sig_links::Outside;
use sig_outside::Sink;
use sig_program::numbered;
use std::alloc::Global;

// Makes an empty store as it is asked for, puts the last line, and answers the exit status.
pub(crate) fn run_init<X: Outside, O: Sink>(
    alloc: Global,
    kind: Kind,
    store: &str,
    store_id: [u8; 16],
    output: &mut O,
    outside: &mut X,
) -> u8
    ensures ends { InitRan (record { kind = kind; store = store.now; store_id = store_id })
        (X.held outside.old) (X.held outside.new) (X.store_faults outside.old) (X.store_faults outside.new)
        (output_state (O.written output.old) (O.faults output.old) (O.stalls output.old)) (output_state (O.written output.new) (O.faults output.new) (O.stalls output.new)) result }
    ensures settings { (X.settings_of outside.new ≡ X.settings_of outside.old) × (X.settings_faults outside.new ≡ X.settings_faults outside.old) }
    ensures doors { (X.doors outside.new ≡ X.doors outside.old) × (X.doors_out outside.new ≡ X.doors_out outside.old) × (X.doors_back outside.new ≡ X.doors_back outside.old) }
    ensures sides { (X.sides outside.new ≡ X.sides outside.old) × (X.sides_out outside.new ≡ X.sides_out outside.old) × (X.sides_back outside.new ≡ X.sides_back outside.old) }
    ensures network { X.network_faults outside.new ≡ X.network_faults outside.old }
{
    let made = init(alloc, outside, kind, store, store_id);
    close(made, output)
}

// Puts the last line of an ending, and answers the exit status.
fn close<O: Sink>(made: InitEnd, output: &mut O) -> u8
    ensures { PutLast (status_of made) (last_line made) (output_state (O.written output.old) (O.faults output.old) (O.stalls output.old)) (output_state (O.written output.new) (O.faults output.new) (O.stalls output.new)) result }
{
    match made {
        InitEnd::Done => 0,
        InitEnd::NotEmpty(size) => put_last(
            12,
            numbered("signals: not empty ", size).as_str(),
            output,
        ),
        InitEnd::Store => put_last(5, "signals: store failed\n", output),
        InitEnd::Memory => put_last(9, "signals: memory\n", output),
    }
}
