//! Stores in memory: new ones, and what a crash leaves of one.

ghost use Rattle.std.specs.Prelude.{◌≡◌, [], false, IfOk, Ok, OnOk};
ghost use Rattle.sig_outside.specs.KeptDisk.{seen};
ghost use Rattle.sig_journal.specs.Store.{tells};
ghost use Rattle.sig_still.specs.Still.{rest};
ghost use Rattle.sig_still.specs.Stores.{store_of};

use crate::StillDisk;
use sig_journal::{Kind, make};
use sig_json::{Bytes, Memory};
use std::alloc::Global;

/// The two files of a new store.
pub fn new_store(
    alloc: Global,
    kind: Kind,
    store_id: [u8; 16],
) -> Result<(StillDisk, StillDisk), Memory>
    ensures { IfOk result (λ s. tells kind (seen s.0) (seen s.1) ≡ Ok (store_of store_id [])) }
{
    let mut a = StillDisk::new(alloc, Bytes::new(alloc));
    let mut b = StillDisk::new(alloc, Bytes::new(alloc));
    match make(&mut a, &mut b, kind, store_id) {
        Ok(()) => Ok((a, b)),
        Err(_) => Err(Memory),
    }
}

/// What a crash leaves of two files: each as it rests. Files that were short of memory leave nothing that is known.
pub fn crashed_store(
    alloc: Global,
    a: &StillDisk,
    b: &StillDisk,
) -> Result<(StillDisk, StillDisk), Memory>
    ensures rests { IfOk result (λ s. (seen s.0 ≡ rest a.now) × (seen s.1 ≡ rest b.now)) }
    ensures whole { OnOk result ((a.now.short ≡ false) × (b.now.short ≡ false)) }
{
    if a.short() || b.short() {
        return Err(Memory);
    }
    let first = StillDisk::new(alloc, a.image()?);
    let second = StillDisk::new(alloc, b.image()?);
    Ok((first, second))
}
