//! The rows of a snapshot, no two of them of identical subjects.

ghost use Rattle.sig_json.specs.Answers.{result_map};
ghost use Rattle.std.specs.Prelude.{[]};
ghost use Rattle.sig_fields.specs.Reading.{Takes};
ghost use Rattle.sig_rxstate.specs.Lists.{with_more, with_one};
ghost use Rattle.sig_rxstate.specs.Parts as parts;
ghost use Rattle.sig_rxstate.specs.State.{read_rows};

use crate::fields::RowField;
use sig_fields::{Field, PartFault, Reading};
use sig_sessions::Table;
use std::alloc::Global;

/// A count and so many rows, none of which is of the subject of another.
pub(crate) fn take_rows(alloc: Global, bytes: &mut Reading<'_>) -> Result<Table, PartFault>
    ensures { Takes (read_rows bytes.old) (result_map (λ t. t.rows) result) bytes.new }
{
    let count = bytes.take_number()?;
    take_many(alloc, bytes, count)
}

// So many rows.
fn take_many(alloc: Global, bytes: &mut Reading<'_>, count: u64) -> Result<Table, PartFault>
    ensures { Takes (with_more parts.has_subject parts.row count [] bytes.old) (result_map (λ t. t.rows) result) bytes.new }
{
    let mut table = Table::new(alloc);
    for _ in 0..count {
        take_one(alloc, bytes, &mut table)?;
    }
    Ok(table)
}

// One more row.
fn take_one(alloc: Global, bytes: &mut Reading<'_>, table: &mut Table) -> Result<(), PartFault>
    ensures { Takes (with_one parts.has_subject parts.row table.old.rows bytes.old) (result_map (λ u. table.new.rows) result) bytes.new }
{
    let begun = bytes.rest();
    let row = RowField::take(alloc, bytes)?;
    let is_new = table.put_row(row)?;
    bytes.accept(begun, if is_new { Some(()) } else { None })
}
