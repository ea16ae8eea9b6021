ghost use Rattle.std.specs.Prelude.{◌≡◌, ◌⊎◌, ◌<◌, ◌≤◌, ℕ, List, [], ◌∷◌, length, Some, None, false, Ok, IsErrOf, IsTrue, OnOk};
ghost use Rattle.sig_outside.specs.Causes.{Rose};
ghost use Rattle.sig_outside.specs.Disk.{Only};
ghost use Rattle.sig_journal.specs.Layout.{first_size, new_bytes};
ghost use Rattle.sig_journal.specs.Store.{tells};

use crate::Kind;
use crate::durable::write_synced;
use crate::layout::{GATE_OPEN, MAGIC, VERSION};
use sig_outside::{Disk, Failed};
use thiserror::Error;

/// Why a store was not made.
#[derive(Clone, Copy, Debug, PartialEq, Eq, Error)]
pub enum MakeFault {
    /// A disk failed, and counted it. The files are of no use.
    #[error("the disk failed")]
    Store,
    /// A file, the first such, has this many bytes. Nothing was written.
    #[error("a file has {0} bytes")]
    Taken(u64),
}

impl From<Failed> for MakeFault {
    ghost use Rattle.sig_journal.specs.declared.making.MakeFault.TheVariants.{Store};

    ghost from_gives = { λ _ e. e ≡ Store };

    fn from(_failed: Failed) -> MakeFault {
        MakeFault::Store
    }
}

/// Makes an empty store of two empty files, and syncs it. The first file is in force.
///
/// No crash takes it away at `Ok`; of a crash during the call nothing is said.
pub fn make<D: Disk>(a: &mut D, b: &mut D, kind: Kind, store_id: [u8; 16]) -> Result<(), MakeFault>
    ensures bytes { OnOk result (IsTrue (D.told a.old) → IsTrue (D.told b.old) → (D.seen a.new ≡ GATE_OPEN ∷ new_bytes kind store_id) × (D.seen b.new ≡ 0 ∷ [])) }
    ensures tells { OnOk result (IsTrue (D.told a.old) → IsTrue (D.told b.old) → tells kind (D.seen a.new) (D.seen b.new) ≡ Ok (record { in_b = false; content = record { store_id = store_id; snapshot = []; records = [] } })) }
    ensures durable { OnOk result (Only (D.seen a.new) (D.may_leave a.new) × Only (D.seen b.new) (D.may_leave b.new)) }

    // A file that isn't empty is never overwritten, and the first such is told.
    ensures taken { (n : ℕ) → IsErrOf result (MakeFault.Taken n) → IsTrue (D.told a.old) → IsTrue (D.told b.old) → first_size (D.seen a.old) (D.seen b.old) ≡ Some n }
    ensures free { OnOk result (IsTrue (D.told a.old) → IsTrue (D.told b.old) → first_size (D.seen a.old) (D.seen b.old) ≡ None) }
    ensures untouched { (n : ℕ) → IsErrOf result (MakeFault.Taken n) → (D.seen a.new ≡ D.seen a.old) × (D.seen b.new ≡ D.seen b.old) }
    ensures store { IsErrOf result MakeFault.Store → Rose (D.faults a.old) (D.faults a.new) ⊎ Rose (D.faults b.old) (D.faults b.new) }
    ensures steady { OnOk result ((D.faults a.new ≡ D.faults a.old) × (D.faults b.new ≡ D.faults b.old)) }
    ensures calm { (n : ℕ) → IsErrOf result (MakeFault.Taken n) → (D.faults a.new ≡ D.faults a.old) × (D.faults b.new ≡ D.faults b.old) }
    ensures later { (D.faults a.old ≤ D.faults a.new) × (D.faults b.old ≤ D.faults b.new) }
    ensures told { (D.told a.new ≡ D.told a.old) × (D.told b.new ≡ D.told b.old) }
{
    expect_empty(a)?;
    expect_empty(b)?;
    write_synced(a, 0, &closed_file(kind, store_id))?;
    write_synced(b, 0, &[0])?;
    write_synced(a, 0, &[GATE_OPEN])?;
    Ok(())
}

fn expect_empty<D: Disk>(file: &mut D) -> Result<(), MakeFault>
    ensures free { OnOk result (IsTrue (D.told file.old) → D.seen file.old ≡ []) }
    ensures taken { (n : ℕ) → IsErrOf result (MakeFault.Taken n) → (0 < n) × (IsTrue (D.told file.old) → n ≡ length (D.seen file.old)) }
    ensures seen { D.seen file.new ≡ D.seen file.old }
    ensures told { D.told file.new ≡ D.told file.old }
    ensures store { IsErrOf result MakeFault.Store → Rose (D.faults file.old) (D.faults file.new) }
    ensures steady { OnOk result (D.faults file.new ≡ D.faults file.old) }
    ensures calm { (n : ℕ) → IsErrOf result (MakeFault.Taken n) → D.faults file.new ≡ D.faults file.old }
    ensures later { D.faults file.old ≤ D.faults file.new }
{
    let size = file.size()?;
    if size > 0 {
        return Err(MakeFault::Taken(size));
    }
    Ok(())
}

// The first file of a new store, its header gate closed.
fn closed_file(kind: Kind, store_id: [u8; 16]) -> [u8; 36]
    ensures bytes { result ≡ 0 ∷ new_bytes kind store_id }
    ensures named { length store_id ≡ 16 }
{
    let mut file = [0u8; 36];
    file[1..5].copy_from_slice(&MAGIC);
    file[5] = VERSION;
    file[6] = kind.byte();
    file[15..31].copy_from_slice(&store_id);
    file
}
