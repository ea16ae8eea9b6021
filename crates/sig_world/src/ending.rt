//! What is printed at the end of a script: the session table, and what each stream owes.

ghost use Rattle.std.specs.Prelude.{◌≡◌, ◌++◌, ◌+◌, ℕ, List, [], OnOk, drop, length};
ghost use Rattle.sig_receiver.specs.Journal.{distinct};
ghost use Rattle.sig_receiver.specs.Printed.{table_text};
ghost use Rattle.sig_terms.specs.declared.fact.Fact.{Fact};
ghost use Rattle.sig_nodes.specs.Receiving.{kept_of};
ghost use Rattle.sig_nodes.specs.Sending.{sum_at};
ghost use Rattle.sig_schedules.specs.Replay.{owed_text, owed_line, replay_store};
ghost use Rattle.sig_world.specs.Ends.{RxIn, TxIn};
ghost use Rattle.sig_command.specs.Moment.{output_state};
ghost use Rattle.sig_command.specs.Telling.{PutSo, WhyPut};

use sig_command::{LinesEnd, put_gathered};
use sig_fold::print_table;
use sig_json::{Bytes, Memory, Text};
use sig_outbox::Outbox;
use sig_outside::Sink;
use sig_rxnode::RxNode;
use sig_still::StillDisk;
use sig_txnode::TxNode;
use std::alloc::Global;

/// Prints what is gathered, and the session table of a receiver that is there. The ending is `Done`, `Memory` or `Output`.
pub(crate) fn print_received<O: Sink>(
    alloc: Global,
    rx: &Option<RxNode<StillDisk>>,
    gathered: &mut Bytes,
    output: &mut O,
) -> LinesEnd
    ensures text { (texts : List (List ℕ)) → RxIn rx.now texts → PutSo (gathered.old ++ table_text (kept_of texts).rows (length (distinct [] texts))) (O.written output.old) (O.written output.new) result }
    ensures cause { WhyPut (output_state (O.written output.old) (O.faults output.old) (O.stalls output.old)) (output_state (O.written output.new) (O.faults output.new) (O.stalls output.new)) result }
{
    match rx {
        None => LinesEnd::Memory,
        Some(node) => match node.copy() {
            Ok(state) => {
                let rows = state.table.as_slice();
                print_table(alloc, rows, state.seen.len(), gathered, output)
            }
            Err(Memory) => LinesEnd::Memory,
        },
    }
}

/// Prints what each stream of a transmitter that is there owes. The ending is `Done`, `Memory` or `Output`.
pub(crate) fn print_owed<O: Sink>(
    alloc: Global,
    tx: &Option<TxNode<StillDisk>>,
    output: &mut O,
) -> LinesEnd
    ensures text { (facts : List Fact) → TxIn tx.now facts → PutSo (owed_text (sum_at replay_store facts) (sum_at replay_store facts).parts.streams) (O.written output.old) (O.written output.new) result }
    ensures cause { WhyPut (output_state (O.written output.old) (O.faults output.old) (O.stalls output.old)) (output_state (O.written output.new) (O.faults output.new) (O.stalls output.new)) result }
{
    match tx {
        None => LinesEnd::Memory,
        Some(node) => match node.copy() {
            Ok(outbox) => put_owed(alloc, &outbox, output),
            Err(Memory) => LinesEnd::Memory,
        },
    }
}

fn put_owed<O: Sink>(alloc: Global, outbox: &Outbox, output: &mut O) -> LinesEnd
    ensures text { PutSo (owed_text outbox.now.sum outbox.now.sum.parts.streams) (O.written output.old) (O.written output.new) result }
    ensures cause { WhyPut (output_state (O.written output.old) (O.faults output.old) (O.stalls output.old)) (output_state (O.written output.new) (O.faults output.new) (O.stalls output.new)) result }
{
    let mut text = Bytes::new(alloc);
    let Ok(()) = add_owed(alloc, outbox, &mut text) else {
        return LinesEnd::Memory;
    };
    match put_gathered(output, &mut text) {
        Ok(()) => LinesEnd::Done,
        Err(_) => LinesEnd::Output,
    }
}

fn add_owed(alloc: Global, outbox: &Outbox, text: &mut Bytes) -> Result<(), Memory>
    ensures { OnOk result (text.new ≡ text.old ++ owed_text outbox.now.sum outbox.now.sum.parts.streams) }
{
    for place in 0..outbox.streams() {
        add_at(alloc, outbox, place, text)?;
    }
    Ok(())
}

// Adds the line of the stream at a place.
fn add_at(alloc: Global, outbox: &Outbox, place: usize, text: &mut Bytes) -> Result<(), Memory>
    ensures { OnOk result (text.new ++ owed_text outbox.now.sum (drop (place + 1) outbox.now.sum.parts.streams)
        ≡ text.old ++ owed_text outbox.now.sum (drop place outbox.now.sum.parts.streams)) }
{
    match outbox.stream_at(place) {
        None => Ok(()),
        Some(name) => add_stream(alloc, outbox, name, text),
    }
}

fn add_stream(alloc: Global, outbox: &Outbox, name: &Text, text: &mut Bytes) -> Result<(), Memory>
    ensures { OnOk result (text.new ≡ text.old ++ owed_line outbox.now.sum name.now) }
{
    let owed = outbox.owed(name.as_str()).unwrap_or(0);
    let stream = name.as_str();
    let line = format!(in alloc; "owed {stream} {owed}\n")?;
    text.add(line.as_bytes())
}
