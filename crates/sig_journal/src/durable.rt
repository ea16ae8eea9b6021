ghost use Rattle.std.specs.Prelude.{◌≡◌, ℕ, List, length, IsTrue, OnOk};
ghost use Rattle.sig_outside.specs.Causes.{HasCause};
ghost use Rattle.sig_outside.specs.Disk.{GetsShort, LeavesOnly, Only, with_bytes};
ghost use Rattle.sig_journal.specs.Durable.{TornFrom, UsesBoth};

use sig_outside::{Disk, Failed};

/// Writes bytes at an offset, and syncs the file: at `Ok` no crash takes them away.
pub fn write_synced<D: Disk>(file: &mut D, at: u64, bytes: &[u8]) -> Result<(), Failed>
    ensures written { OnOk result (IsTrue (D.told file.old) → D.seen file.new ≡ with_bytes at bytes.now (D.seen file.old)) }
    ensures durable { OnOk result (Only (D.seen file.new) (D.may_leave file.new)) }
    ensures moments { LeavesOnly D.moment D.left_since file.old file.new (TornFrom (D.may_leave file.old) at (length bytes.now)) }
    ensures kind { (D.told file.new ≡ D.told file.old) × (D.stops file.new ≡ D.stops file.old) }
    ensures stop { UsesBoth at (length bytes.now) (D.seen file.new) (D.stop file.old) (D.stop file.new) (D.short file.new) result }
    ensures short { GetsShort (D.short file.old) (D.short file.new) result }
    ensures cause { HasCause (D.faults file.old) (D.faults file.new) result }
{
    file.write_at(at, bytes)?;
    file.sync()
}
