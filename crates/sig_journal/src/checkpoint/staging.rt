ghost use Rattle.std.specs.Prelude.{◌≡◌, ◌⊎◌, ◌+◌, ℕ, List, ◌∷◌, drop, IsTrue, OnOk};
ghost use Rattle.sig_outside.specs.Causes.{HasCause};
ghost use Rattle.sig_outside.specs.Disk.{GetsShort, LeavesOnly, Only};
ghost use Rattle.sig_journal.specs.Store.{gate_of};
ghost use Rattle.sig_journal.specs.Beside.{LeavesTold};
ghost use Rattle.sig_journal.specs.Gates.{BeginsOpen, IsShut, closing_calls};
ghost use Rattle.sig_journal.specs.Runs.{RestsAfter, UsesRun};

use super::gates::{close_gate, open_gate};
use super::writing::write_content;
use crate::GATE_OPEN;
use sig_outside::{Disk, Failed};

/// Puts these bytes after the header gate of a file that isn't in force, and leaves the gate closed: at any moment the store
/// tells what it told. Five calls of the device, or three where the gate wasn't open.
pub fn stage<D: Disk>(file: &mut D, is_open: bool, bytes: &[u8]) -> Result<(), Failed>
    requires gate { IsTrue (D.told file.old) → BeginsOpen is_open (gate_of (D.seen file.old)) }
    requires rests { Only (D.seen file.old) (D.may_leave file.old) }
    ensures staged { OnOk result (IsTrue (D.told file.old) → IsShut (D.seen file.new) × (drop 1 (D.seen file.new) ≡ bytes.now)) }
    ensures durable { OnOk result (Only (D.seen file.new) (D.may_leave file.new)) }
    ensures any_moment { IsTrue (D.told file.old) → LeavesOnly D.moment D.left_since file.old file.new (LeavesTold (D.seen file.old)) }
    ensures stop { IsTrue (D.told file.old) → UsesRun (closing_calls is_open + 3) (λ calls fill. LeavesTold (D.seen file.old)) (D.seen file.new) (D.stop file.old) (D.stop file.new) (D.short file.new) result }
    ensures kind { (D.told file.new ≡ D.told file.old) × (D.stops file.new ≡ D.stops file.old) }
    ensures short { GetsShort (D.short file.old) (D.short file.new) result }
    ensures cause { HasCause (D.faults file.old) (D.faults file.new) result }
{
    close_gate(file, is_open)?;
    write_content(file, bytes)
}

/// Puts these bytes after the header gate of a file that isn't in force, and then opens the gate: at any moment the store
/// tells what it told, or the file is these bytes after an open gate. Seven calls of the device, or five where the gate
/// wasn't open.
pub fn put_file<D: Disk>(file: &mut D, is_open: bool, bytes: &[u8]) -> Result<(), Failed>
    requires gate { IsTrue (D.told file.old) → BeginsOpen is_open (gate_of (D.seen file.old)) }
    requires rests { Only (D.seen file.old) (D.may_leave file.old) }
    ensures opened { OnOk result (IsTrue (D.told file.old) → D.seen file.new ≡ GATE_OPEN ∷ bytes.now) }
    ensures durable { OnOk result (Only (D.seen file.new) (D.may_leave file.new)) }
    ensures any_moment { IsTrue (D.told file.old) → LeavesOnly D.moment D.left_since file.old file.new (λ image. LeavesTold (D.seen file.old) image ⊎ (image ≡ GATE_OPEN ∷ bytes.now)) }
    ensures stop { IsTrue (D.told file.old) → RestsAfter (closing_calls is_open + 5) (LeavesTold (D.seen file.old)) (λ image. image ≡ GATE_OPEN ∷ bytes.now) (D.stop file.old) (D.stop file.new) (D.short file.new) result }
    ensures kind { (D.told file.new ≡ D.told file.old) × (D.stops file.new ≡ D.stops file.old) }
    ensures short { GetsShort (D.short file.old) (D.short file.new) result }
    ensures cause { HasCause (D.faults file.old) (D.faults file.new) result }
{
    stage(file, is_open, bytes)?;
    open_gate(file)
}
