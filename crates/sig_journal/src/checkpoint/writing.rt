ghost use Rattle.std.specs.Prelude.{◌≡◌, ℕ, List, drop, IsTrue, OnOk};
ghost use Rattle.sig_outside.specs.Causes.{HasCause};
ghost use Rattle.sig_outside.specs.Disk.{GetsShort, LeavesOnly, Only};
ghost use Rattle.sig_journal.specs.Gates.{IsShut};
ghost use Rattle.sig_journal.specs.Runs.{UsesRun};

use crate::durable::write_synced;
use sig_outside::{Disk, Failed};

/// Puts these bytes in place of all that stands after the closed header gate of a file, and syncs it: at any moment that gate
/// is closed. Three calls of the device.
pub fn write_content<D: Disk>(file: &mut D, bytes: &[u8]) -> Result<(), Failed>
    requires gate { IsTrue (D.told file.old) → IsShut (D.seen file.old) }
    requires rests { Only (D.seen file.old) (D.may_leave file.old) }
    ensures written { OnOk result (IsTrue (D.told file.old) → IsShut (D.seen file.new) × (drop 1 (D.seen file.new) ≡ bytes.now)) }
    ensures durable { OnOk result (Only (D.seen file.new) (D.may_leave file.new)) }
    ensures any_moment { IsTrue (D.told file.old) → LeavesOnly D.moment D.left_since file.old file.new IsShut }
    ensures stop { IsTrue (D.told file.old) → UsesRun 3 (λ calls fill. IsShut) (D.seen file.new) (D.stop file.old) (D.stop file.new) (D.short file.new) result }
    ensures kind { (D.told file.new ≡ D.told file.old) × (D.stops file.new ≡ D.stops file.old) }
    ensures short { GetsShort (D.short file.old) (D.short file.new) result }
    ensures cause { HasCause (D.faults file.old) (D.faults file.new) result }
{
    file.cut(1)?;
    write_synced(file, 1, bytes)
}
