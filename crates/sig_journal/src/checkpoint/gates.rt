ghost use Rattle.std.specs.Prelude.{◌≡◌, ◌⊎◌, ◌<◌, ℕ, List, length, IsTrue, OnOk};
ghost use Rattle.sig_outside.specs.Causes.{HasCause};
ghost use Rattle.sig_outside.specs.Disk.{GetsShort, LeavesOnly, Only};
ghost use Rattle.sig_journal.specs.Store.{gate_of};
ghost use Rattle.sig_journal.specs.Beside.{LeavesTold};
ghost use Rattle.sig_journal.specs.Gates.{BeginsOpen, GateRests, IsShut, OpeningRests, WithAnyGate, closing_calls, with_gate};
ghost use Rattle.sig_journal.specs.Runs.{UsesRun};

use crate::GATE_OPEN;
use crate::durable::write_synced;
use sig_outside::{Disk, Failed};

/// Writes the header gate of a file, and syncs it. Two calls of the device.
fn write_gate<D: Disk>(file: &mut D, gate: u8) -> Result<(), Failed>
    requires some { IsTrue (D.told file.old) → 0 < length (D.seen file.old) }
    requires rests { Only (D.seen file.old) (D.may_leave file.old) }
    ensures written { OnOk result (IsTrue (D.told file.old) → D.seen file.new ≡ with_gate gate (D.seen file.old)) }
    ensures durable { OnOk result (Only (D.seen file.new) (D.may_leave file.new)) }
    ensures any_moment { IsTrue (D.told file.old) → LeavesOnly D.moment D.left_since file.old file.new (WithAnyGate (D.seen file.old)) }
    ensures stop { IsTrue (D.told file.old) → UsesRun 2 (GateRests (D.seen file.old)) (D.seen file.new) (D.stop file.old) (D.stop file.new) (D.short file.new) result }
    ensures kind { (D.told file.new ≡ D.told file.old) × (D.stops file.new ≡ D.stops file.old) }
    ensures short { GetsShort (D.short file.old) (D.short file.new) result }
    ensures cause { HasCause (D.faults file.old) (D.faults file.new) result }
{
    write_synced(file, 0, &[gate])
}

/// Closes the header gate of a file that isn't in force, where it is open. At any moment the store tells what it told. Two
/// calls of the device, or none.
pub fn close_gate<D: Disk>(file: &mut D, is_open: bool) -> Result<(), Failed>
    requires gate { IsTrue (D.told file.old) → BeginsOpen is_open (gate_of (D.seen file.old)) }
    requires rests { Only (D.seen file.old) (D.may_leave file.old) }
    ensures closed { OnOk result (IsTrue (D.told file.old) → IsShut (D.seen file.new)) }
    ensures durable { OnOk result (Only (D.seen file.new) (D.may_leave file.new)) }
    ensures any_moment { IsTrue (D.told file.old) → LeavesOnly D.moment D.left_since file.old file.new (LeavesTold (D.seen file.old)) }
    ensures stop { IsTrue (D.told file.old) → UsesRun (closing_calls is_open) (λ calls fill. LeavesTold (D.seen file.old)) (D.seen file.new) (D.stop file.old) (D.stop file.new) (D.short file.new) result }
    ensures kind { (D.told file.new ≡ D.told file.old) × (D.stops file.new ≡ D.stops file.old) }
    ensures short { GetsShort (D.short file.old) (D.short file.new) result }
    ensures cause { HasCause (D.faults file.old) (D.faults file.new) result }
{
    if !is_open {
        return Ok(());
    }
    write_gate(file, 0)
}

/// Opens the closed header gate of a file: at any moment that gate is closed, or the file is as it was with an open gate.
/// Two calls of the device.
pub fn open_gate<D: Disk>(file: &mut D) -> Result<(), Failed>
    requires gate { IsTrue (D.told file.old) → IsShut (D.seen file.old) }
    requires rests { Only (D.seen file.old) (D.may_leave file.old) }
    ensures opened { OnOk result (IsTrue (D.told file.old) → D.seen file.new ≡ with_gate GATE_OPEN (D.seen file.old)) }
    ensures durable { OnOk result (Only (D.seen file.new) (D.may_leave file.new)) }
    ensures any_moment { IsTrue (D.told file.old) → LeavesOnly D.moment D.left_since file.old file.new (λ image. IsShut image ⊎ (image ≡ with_gate GATE_OPEN (D.seen file.old))) }
    ensures stop { IsTrue (D.told file.old) → UsesRun 2 (OpeningRests (D.seen file.old)) (D.seen file.new) (D.stop file.old) (D.stop file.new) (D.short file.new) result }
    ensures kind { (D.told file.new ≡ D.told file.old) × (D.stops file.new ≡ D.stops file.old) }
    ensures short { GetsShort (D.short file.old) (D.short file.new) result }
    ensures cause { HasCause (D.faults file.old) (D.faults file.new) result }
{
    write_gate(file, GATE_OPEN)
}
