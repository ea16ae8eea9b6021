//! The stores of an outside in memory.

ghost use Rattle.std.specs.Prelude.{◌≡◌, [], ◌∷◌, IfNone, IfOk, IfSome, IsTrue, None, OnErr, OnOk, Some, false, is_some, option_map};
ghost use Rattle.sig_memory_links.specs.Named.{but_named, is_listed};
ghost use Rattle.sig_memory_links.specs.Outside.{IsDiskOf, disk_of, is_there, without_disk};

use crate::lent::put_at;
use crate::named::{place_of, take_named};
use crate::{LentDisk, NamedDisk};
use sig_json::{Bytes, Items, Memory, Text};
use sig_outside::{Failed, MemDisk};
use std::alloc::Global;
use std::marker::Model;

// Stores by their names. There is room for all that are out.
#[derive(Drop)]
pub(crate) struct HeldStores {
    alloc: Global,
    there: Vec<NamedDisk>,
    out: Vec<Text>,
}

impl Model for HeldStores {
    ghost use Rattle.std.specs.Prelude.{◌+◌, ◌≤◌, vec_capacity, length};
    ghost use Rattle.sig_memory_links.specs.Outside.{MemoryStores};

    ghost Value = { MemoryStores };

    ghost view = { λ s. record { there = s.there.items; out = s.out.items } };

    ghost invariant = { λ s. length s.there.items + length s.out.items ≤ vec_capacity s.there };
}

impl HeldStores {
    pub(crate) fn new(alloc: Global, stores: Items<NamedDisk>) -> HeldStores
        ensures { result ≡ record { there = stores; out = [] } }
    {
        HeldStores {
            alloc,
            there: stores.into_vec(),
            out: Vec::new(alloc),
        }
    }

    // The first store with this name, or an empty one.
    pub(crate) fn take(&mut self, name: &str) -> Result<LentDisk<MemDisk>, Memory>
        ensures given { IfOk result (λ disk. IsDiskOf (disk_of name.now self.old) disk.disk) }
        ensures whole { IfOk result (λ disk. disk.faults ≡ 0) }
        ensures ok { OnOk result (self.new ≡ without_disk name.now self.old) }
        ensures err { OnErr result (self.new ≡ self.old) }
    {
        let kept = Text::of(self.alloc, name)?;
        let Some(out) = self.out.len().checked_add(1) else {
            return Err(Memory);
        };
        self.there.reserve(out)?;
        self.out.insert(0, kept)?;
        Ok(LentDisk::new(match take_named(&mut self.there, name) {
            Some(given) => given.disk,
            None => empty_disk(self.alloc),
        }))
    }

    // The first store with this name, where there is one. It fails where that is out, and else only where it is refused memory.
    pub(crate) fn find(&mut self, name: &str) -> Result<Option<LentDisk<MemDisk>>, Failed>
        ensures there { IfOk result (λ found. is_there self.old name.now ≡ Some (is_some found)) }
        ensures found { IfOk result (λ found. option_map (λ disk. disk.disk) found ≡ option_map (λ given. given.disk) (disk_of name.now self.old)) }
        ensures whole { IfOk result (λ found. IfSome found (λ disk. disk.faults ≡ 0)) }
        ensures some { IfOk result (λ found. IfSome found (λ disk. self.new ≡ without_disk name.now self.old)) }
        ensures none { IfOk result (λ found. IfNone found (self.new ≡ self.old)) }
        ensures err { OnErr result (self.new ≡ self.old) }
    {
        if self.disk(name).is_some() {
            return match self.take(name) {
                Ok(disk) => Ok(Some(disk)),
                Err(_) => Err(Failed),
            };
        }
        if self.is_out(name) {
            return Err(Failed);
        }
        Ok(None)
    }

    // Whether one with this name is out.
    fn is_out(&self, name: &str) -> bool
        ensures { result ≡ is_listed name.now self.now.out }
    {
        match place_of(self.out.as_slice(), name) {
            Some(_) => true,
            None => false,
        }
    }

    // Takes back a store under this name. It isn't kept where none of this name is out.
    #[tactic(auto, using(crate::proofs::NamedLemmas::found_named))]
    pub(crate) fn take_back(&mut self, name: &str, disk: LentDisk<MemDisk>)
        ensures there { IsTrue (is_listed name.now self.old.out) → self.new.there ≡ record { name = name.now; disk = disk.disk } ∷ self.old.there }
        ensures unasked { is_listed name.now self.old.out ≡ false → self.new.there ≡ self.old.there }
        ensures out { self.new.out ≡ but_named (λ text. text) name.now self.old.out }
    {
        match take_named(&mut self.out, name) {
            Some(name) => {
                let disk = disk.into_disk();
                put_at(&mut self.there, 0, NamedDisk { name, disk });
            }
            None => drop(disk),
        }
    }

    // The first disk with this name that isn't out.
    pub(crate) fn disk(&self, name: &str) -> Option<&MemDisk>
        ensures { option_map (λ disk. disk.now) result ≡ option_map (λ given. given.disk) (disk_of name.now self.now) }
    {
        let at = place_of(self.there.as_slice(), name)?;
        Some(&self.there[at].disk)
    }
}

// The file of a store that isn't there.
fn empty_disk(alloc: Global) -> MemDisk
    ensures { IsDiskOf None result }
{
    MemDisk::new(alloc, Bytes::new(alloc), Items::of(Vec::new(alloc)))
}
