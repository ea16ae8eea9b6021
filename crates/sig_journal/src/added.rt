ghost use Rattle.std.specs.Prelude.{◌≡◌, ◌+◌, ◌<◌, ◌≤◌, ℕ, List, length, IsTrue, OnOk};
ghost use Rattle.sig_json.specs.declared.limits.TheConstants.{LAST_NUMBER};
ghost use Rattle.sig_outside.specs.Causes.{HasCause};
ghost use Rattle.sig_outside.specs.Disk.{GetsShort, LeavesOnly, Only};
ghost use Rattle.sig_journal.specs.Added.{RestsWith, ShowsAfter, ShowsBefore, ShowsEither};

use crate::durable::write_synced;
use crate::{Framed, GATE_OPEN};
use sig_outside::{Disk, Failed};

/// Adds a record to a file whose last gate stands before `end`: all after that gate, and once no crash takes that away,
/// the gate. Four calls of the device.
pub fn add_record<D: Disk>(file: &mut D, end: u64, framed: &Framed) -> Result<(), Failed>
    requires gate { 0 < end }
    requires room { end + 5 + length framed.now ≤ LAST_NUMBER }
    requires rests { Only (D.seen file.old) (D.may_leave file.old) }

    ensures added { OnOk result (IsTrue (D.told file.old) → ShowsAfter (D.seen file.old) end framed.now (D.seen file.new)) }
    ensures durable { OnOk result (Only (D.seen file.new) (D.may_leave file.new)) }
    ensures any_moment { IsTrue (D.told file.old) → LeavesOnly D.moment D.left_since file.old file.new (ShowsEither (D.seen file.old) end framed.now) }
    ensures stop { IsTrue (D.told file.old) → RestsWith (ShowsBefore (D.seen file.old) end) (ShowsAfter (D.seen file.old) end framed.now) (D.stop file.old) (D.stop file.new) (D.short file.new) result }
    ensures kind { (D.told file.new ≡ D.told file.old) × (D.stops file.new ≡ D.stops file.old) }
    ensures short { GetsShort (D.short file.old) (D.short file.new) result }
    ensures cause { HasCause (D.faults file.old) (D.faults file.new) result }
{
    write_synced(file, end, framed.bytes())?;
    write_synced(file, end - 1, &[GATE_OPEN])
}
