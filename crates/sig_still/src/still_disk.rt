ghost use Rattle.std.specs.Prelude.{◌≡◌, [], false, None, IfOk};
ghost use Rattle.sig_outside.specs.KeptDisk.{left_since, may_leave, seen};
ghost use Rattle.sig_still.specs.Still as still;
ghost use Rattle.sig_outside.specs.DiskLaws.{counts_kept, only_kept, reads_kept};

use sig_json::{Bytes, Items, Memory};
use sig_outside::{Disk, Failed, MemDisk};
use std::alloc::Global;
use std::marker::Model;

/// A disk in memory, no call of which is to fail: it stands still wherever it is asked to.
#[derive(Drop)]
pub struct StillDisk {
    disk: MemDisk,
}

impl Model for StillDisk {
    ghost use Rattle.std.specs.Prelude.{◌≡◌, []};
    ghost use Rattle.sig_outside.specs.KeptDisk.{Kept};

    ghost Value = { Kept };

    ghost view = { λ d. d.disk };

    ghost invariant = { λ d. d.disk.failing ≡ [] };
}

impl StillDisk {
    /// A file with these bytes, all of them synced. It grows with this allocator.
    pub fn new(alloc: Global, bytes: Bytes) -> StillDisk
        ensures { result ≡ record { first = bytes; calls = []; failing = []; made = 0; faults = 0; short = false; stop = None } }
    {
        let none = Items::of(Vec::new(alloc));
        StillDisk {
            disk: MemDisk::new(alloc, bytes, none),
        }
    }

    /// Whether it was ever refused memory.
    pub fn short(&self) -> bool
        ensures { result ≡ self.now.short }
    {
        self.disk.short()
    }

    /// What it rests with, or what reads give where no stop was set.
    pub fn image(&self) -> Result<Bytes, Memory>
        ensures { IfOk result (λ image. image ≡ still.rest self.now) }
    {
        self.disk.image()
    }
}

impl Disk for StillDisk {
    ghost told = { still.tells_file };

    ghost seen = { seen };

    ghost may_leave = { may_leave };

    ghost moment = { still.moment };

    ghost left_since = { left_since };

    ghost faults = { still.faults };

    ghost stops = { still.stands_still };

    ghost stop = { still.stop };

    ghost short = { still.is_short };

    ghost reads_now = { λ d told. reads_kept d };

    ghost rests = { still.rests_kept };

    ghost counts_now = { counts_kept };

    ghost only_now = { only_kept };

    fn size(&mut self) -> Result<u64, Failed> {
        self.disk.size()
    }

    fn read_at(&mut self, at: u64, buf: &mut [u8]) -> Result<usize, Failed> {
        self.disk.read_at(at, buf)
    }

    fn write_at(&mut self, at: u64, bytes: &[u8]) -> Result<(), Failed> {
        self.disk.write_at(at, bytes)
    }

    fn cut(&mut self, size: u64) -> Result<(), Failed> {
        self.disk.cut(size)
    }

    fn sync(&mut self) -> Result<(), Failed> {
        self.disk.sync()
    }

    fn stop_after(&mut self, calls: u64, fill: u8) {
        self.disk.stop_after(calls, fill);
    }
}
