ghost use Rattle.std.specs.Prelude.{◌≡◌, ◌≤◌, ℕ, List, IsErrOf, IsTrue, IfOk, OnErr, OnOk};
ghost use Rattle.sig_outside.specs.Causes.{HasCause, Rose};
ghost use Rattle.sig_outside.specs.Disk.{Only};
ghost use Rattle.sig_journal.specs.OnlyRead.{OnlyRead};
ghost use Rattle.sig_journal.specs.Store.{gate_of};

use crate::LoadFault;
use crate::gate::{Gate, gate_in};
use sig_outside::{Disk, Failed};
use std::alloc::Global;

// Bytes of a header up to the end of its generation.
const GATE_BYTES: usize = 15;

/// Syncs a file, so that a crash leaves what it reads and nothing else, and reads how it begins.
pub fn settled_gate<D: Disk>(file: &mut D) -> Result<Gate, Failed>
    ensures gate { IfOk result (λ gate. IsTrue (D.told file.old) → gate ≡ gate_of (D.seen file.old)) }
    ensures durable { OnOk result (Only (D.seen file.new) (D.may_leave file.new)) }
    ensures reads { OnlyRead D.told D.seen D.may_leave D.moment D.left_since D.faults file.old file.new }
    ensures cause { HasCause (D.faults file.old) (D.faults file.new) result }
{
    file.sync()?;
    read_gate(file)
}

/// How a file begins.
fn read_gate<D: Disk>(file: &mut D) -> Result<Gate, Failed>
    ensures gate { IfOk result (λ gate. IsTrue (D.told file.old) → gate ≡ gate_of (D.seen file.old)) }
    ensures reads { OnlyRead D.told D.seen D.may_leave D.moment D.left_since D.faults file.old file.new }
    ensures cause { HasCause (D.faults file.old) (D.faults file.new) result }
{
    let mut front = [0u8; GATE_BYTES];
    let count = file.read_at(0, &mut front)?;
    Ok(gate_in(front.as_slice().split_at(count).0))
}

/// All bytes of a file.
pub fn read_all<D: Disk>(alloc: Global, file: &mut D) -> Result<Vec<u8>, LoadFault>
    ensures bytes { IfOk result (λ bytes. IsTrue (D.told file.old) → bytes.items ≡ D.seen file.old) }
    ensures reads { OnlyRead D.told D.seen D.may_leave D.moment D.left_since D.faults file.old file.new }
    ensures failed { IsErrOf result LoadFault.Store → Rose (D.faults file.old) (D.faults file.new) }
    ensures steady { (IsErrOf result LoadFault.Store → ⊥) → D.faults file.new ≡ D.faults file.old }
    ensures whole { (n at : ℕ) → IsErrOf result (LoadFault.Damaged n at) → ⊥ }
{
    let Ok(size) = file.size() else {
        return Err(LoadFault::Store);
    };
    let mut bytes = vec![in alloc; 0u8; size as usize]?;
    let Ok(count) = file.read_at(0, bytes.as_mut_slice()) else {
        return Err(LoadFault::Store);
    };
    bytes.truncate(count);
    Ok(bytes)
}
