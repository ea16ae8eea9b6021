ghost use Rattle.std.specs.Prelude.{◌≡◌, ◌↔◌, ◌+◌, ◌<◌, ◌≤◌, ◌^◌, ℕ, List, length, Some, IsErrOf, IsTrue, OnOk};
ghost use Rattle.sig_json.specs.declared.limits.TheConstants.{LAST_NUMBER};
ghost use Rattle.sig_outside.specs.Causes.{Raised};
ghost use Rattle.sig_outside.specs.Disk.{GetsShort, LeavesOnly, Only};
ghost use Rattle.sig_journal.specs.Store.{InForce, gate_of};
ghost use Rattle.sig_journal.specs.declared.gate.Gate.TheVariants.{Opened};
ghost use Rattle.sig_journal.specs.Beside.{TellsBefore};
ghost use Rattle.sig_journal.specs.Gates.{BeginsOpen, closing_calls};
ghost use Rattle.sig_journal.specs.Runs.{RestsAfter};
ghost use Rattle.sig_journal.specs.Snapshot as spec;
ghost use Rattle.sig_journal.specs.Snapshot.{CallsDisk, TellsEither, TellsSnapshot};

use super::fault::CheckFault;
use super::heading::{Heading, file_bytes};
use super::staging::put_file;
use sig_json::limits::LAST_NUMBER;
use sig_outside::Disk;
use std::alloc::Global;

// The first number that is too great: the snapshot's length, or the next generation.
fn too_great(generation: u64, size: usize) -> Option<u64>
    requires { generation ≤ LAST_NUMBER }
    ensures { result ≡ spec.too_great generation size }
{
    let size = size as u64;
    if size >= 1 << 32 {
        return Some(size);
    }
    if generation >= LAST_NUMBER {
        return Some(generation + 1);
    }
    None
}

/// Puts a snapshot in place of the records of a store: writes it into the other file, and puts that in force.
///
/// `written` is the file in force, which stays as it is, and `header` is its header; `other` is the other file, and
/// `is_open` says whether its header gate is open. Both files are what a crash would leave. Seven calls of the device, or
/// five where that gate isn't open.
pub fn write_snapshot<D: Disk>(
    alloc: Global,
    written: &D,
    other: &mut D,
    is_open: bool,
    header: Heading,
    snapshot: &[u8],
) -> Result<(), CheckFault>
    requires in_force { IsTrue (D.told written.now) → gate_of (D.seen written.now) ≡ Opened header.generation }
    requires bound { header.generation ≤ LAST_NUMBER }
    requires gate { IsTrue (D.told other.old) → BeginsOpen is_open (gate_of (D.seen other.old)) }
    requires rests { Only (D.seen other.old) (D.may_leave other.old) }

    ensures tells { OnOk result (IsTrue (D.told written.now) → IsTrue (D.told other.old) → TellsSnapshot header snapshot.now (D.seen written.now) (D.seen other.new)) }
    ensures put { OnOk result (IsTrue (D.told other.old) → InForce header.kind (D.seen other.new) (36 + length snapshot.now) (header.generation + 1) header.store_id) }
    ensures fits { OnOk result ((length snapshot.now < 2 ^ 32) × (header.generation + 1 ≤ LAST_NUMBER)) }
    ensures durable { OnOk result (Only (D.seen other.new) (D.may_leave other.new)) }

    // A crash at any moment of the call leaves what the store told, or the snapshot in force.
    ensures any_moment { IsTrue (D.told written.now) → IsTrue (D.told other.old)
        → LeavesOnly D.moment D.left_since other.old other.new (TellsEither header snapshot.now (D.seen written.now) (D.seen other.old)) }

    // A disk that stands still rests with the one or the other.
    ensures stopped { IsTrue (D.told written.now) → IsTrue (D.told other.old) → CallsDisk result
        → RestsAfter (closing_calls is_open + 5) (TellsBefore header.kind (D.seen written.now) (D.seen other.old)) (TellsSnapshot header snapshot.now (D.seen written.now))
        (D.stop other.old) (D.stop other.new) (D.short other.new) result }

    ensures kind { (D.told other.new ≡ D.told other.old) × (D.stops other.new ≡ D.stops other.old) }
    ensures big { (n : ℕ) → IsErrOf result (CheckFault.Big n) ↔ (spec.too_great header.generation (length snapshot.now) ≡ Some n) }
    ensures same { (CallsDisk result → ⊥) → other.new ≡ other.old }
    ensures store { IsErrOf result CheckFault.Store → Raised (D.faults other.old) (D.faults other.new) }
    ensures steady { OnOk result (D.faults other.new ≡ D.faults other.old) }
    ensures short { GetsShort (D.short other.old) (D.short other.new) result }
{
    let _ = written;
    if let Some(number) = too_great(header.generation, snapshot.len()) {
        return Err(CheckFault::Big(number));
    }
    let store_id = header.store_id;
    let next = Heading {
        kind: header.kind,
        generation: header.generation + 1,
        store_id,
    };
    let bytes = file_bytes(alloc, next, snapshot)?;
    if put_file(other, is_open, bytes.as_slice()).is_err() {
        return Err(CheckFault::Store);
    }
    Ok(())
}
