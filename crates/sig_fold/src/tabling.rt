//! The session table, printed at the end of a command.

ghost use Rattle.std.specs.Prelude.{◌≡◌, ◌++◌, ℕ, List, IfErr, OnErr, OnOk, length};
ghost use Rattle.std.specs.Io.KnownBytes.{Appends};
ghost use Rattle.sig_receiver.specs.Printed.{counts_text, row_text, rows_text, table_text};
ghost use Rattle.sig_command.specs.Moment.{OutputCalm, output_state};
ghost use Rattle.sig_command.specs.Telling.{PutSo, WhyPut};

use sig_command::{LinesEnd, put_gathered, put_if};
use sig_json::{Bytes, Memory};
use sig_outside::Sink;
use sig_receiver::{counts_line, row_line};
use sig_sessions::Row;
use std::alloc::Global;

/// Prints what is gathered, the rows of a session table, and how many rows and tokens there are. The ending is `Done`,
/// `Memory` or `Output`.
pub fn print_table<O: Sink>(
    alloc: Global,
    rows: &[Row],
    tokens: u64,
    gathered: &mut Bytes,
    output: &mut O,
) -> LinesEnd
    ensures cause { WhyPut (output_state (O.written output.old) (O.faults output.old) (O.stalls output.old)) (output_state (O.written output.new) (O.faults output.new) (O.stalls output.new)) result }
    ensures text { PutSo (gathered.old ++ table_text rows.now tokens) (O.written output.old) (O.written output.new) result }
{
    match print_rows(alloc, rows, gathered, output) {
        Ok(()) => print_counts(alloc, rows.len(), tokens, gathered, output),
        Err(ending) => ending,
    }
}

fn print_counts<O: Sink>(
    alloc: Global,
    rows: usize,
    tokens: u64,
    gathered: &mut Bytes,
    output: &mut O,
) -> LinesEnd
    ensures cause { WhyPut (output_state (O.written output.old) (O.faults output.old) (O.stalls output.old)) (output_state (O.written output.new) (O.faults output.new) (O.stalls output.new)) result }
    ensures text { PutSo (gathered.old ++ counts_text rows tokens) (O.written output.old) (O.written output.new) result }
{
    let Ok(()) = add_counts(alloc, rows, tokens, gathered) else {
        return LinesEnd::Memory;
    };
    match put_gathered(output, gathered) {
        Ok(()) => LinesEnd::Done,
        Err(_) => LinesEnd::Output,
    }
}

fn print_rows<O: Sink>(
    alloc: Global,
    rows: &[Row],
    gathered: &mut Bytes,
    output: &mut O,
) -> Result<(), LinesEnd>
    ensures rows { OnOk result ((text : List ℕ) × (text ++ gathered.new ≡ gathered.old ++ rows_text 1 rows.now) × Appends (O.written output.old) (O.written output.new) text) }
    ensures prefix { IfErr result (PutSo (gathered.old ++ rows_text 1 rows.now) (O.written output.old) (O.written output.new)) }
    ensures failed { IfErr result (λ e. e ≡ LinesEnd.Done → ⊥) }
    ensures cause { IfErr result (WhyPut (output_state (O.written output.old) (O.faults output.old) (O.stalls output.old)) (output_state (O.written output.new) (O.faults output.new) (O.stalls output.new))) }
    ensures calm { OnOk result (OutputCalm (output_state (O.written output.old) (O.faults output.old) (O.stalls output.old)) (output_state (O.written output.new) (O.faults output.new) (O.stalls output.new))) }
{
    let mut place = 1u64;
    for row in rows {
        match print_row(alloc, place, row, gathered, output) {
            Ok(()) => {}
            Err(ending) => return Err(ending),
        }
        place += 1;
    }
    Ok(())
}

fn print_row<O: Sink>(
    alloc: Global,
    place: u64,
    row: &Row,
    gathered: &mut Bytes,
    output: &mut O,
) -> Result<(), LinesEnd>
    ensures row { OnOk result ((text : List ℕ) × (text ++ gathered.new ≡ gathered.old ++ row_text place row.now) × Appends (O.written output.old) (O.written output.new) text) }
    ensures prefix { IfErr result (PutSo (gathered.old ++ row_text place row.now) (O.written output.old) (O.written output.new)) }
    ensures failed { IfErr result (λ e. e ≡ LinesEnd.Done → ⊥) }
    ensures cause { IfErr result (WhyPut (output_state (O.written output.old) (O.faults output.old) (O.stalls output.old)) (output_state (O.written output.new) (O.faults output.new) (O.stalls output.new))) }
    ensures calm { OnOk result (OutputCalm (output_state (O.written output.old) (O.faults output.old) (O.stalls output.old)) (output_state (O.written output.new) (O.faults output.new) (O.stalls output.new))) }
{
    let Ok(()) = add_row(alloc, place, row, gathered) else {
        return Err(LinesEnd::Memory);
    };
    match put_if(false, output, gathered) {
        Ok(()) => Ok(()),
        Err(_) => Err(LinesEnd::Output),
    }
}

fn add_row(alloc: Global, place: u64, row: &Row, gathered: &mut Bytes) -> Result<(), Memory>
    ensures ok { OnOk result (gathered.new ≡ gathered.old ++ row_text place row.now) }
    ensures err { OnErr result (gathered.new ≡ gathered.old) }
{
    let line = row_line(alloc, place, row)?;
    gathered.add(line.as_str().as_bytes())
}

fn add_counts(alloc: Global, rows: usize, tokens: u64, gathered: &mut Bytes) -> Result<(), Memory>
    ensures ok { OnOk result (gathered.new ≡ gathered.old ++ counts_text rows tokens) }
    ensures err { OnErr result (gathered.new ≡ gathered.old) }
{
    let line = counts_line(alloc, rows, tokens)?;
    gathered.add(line.as_str().as_bytes())
}
