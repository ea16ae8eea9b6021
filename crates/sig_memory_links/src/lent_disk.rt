ghost use Rattle.std.specs.Prelude.{◌≡◌};

use sig_links::FaultCount;
use sig_outside::{Disk, Failed};

/// The disk of a store that is out. It is that disk, and counts the calls that failed since it was handed out.
#[derive(Drop)]
pub struct LentDisk<D> {
    disk: D,
    faults: FaultCount,
}

impl<D> LentDisk<D> {
    // A disk as it is handed out.
    pub(crate) fn new(disk: D) -> LentDisk<D>
        ensures { result ≡ record { disk = disk; faults = 0 } }
    {
        LentDisk {
            disk,
            faults: FaultCount::new(),
        }
    }

    // The disk, as it is given back.
    pub(crate) fn into_disk(self) -> D
        ensures { result ≡ self.disk }
    {
        self.disk
    }

    /// The disk itself.
    pub fn disk(&self) -> &D
        ensures { result.now ≡ self.now.disk }
    {
        &self.disk
    }

    /// How many calls failed since it was handed out.
    pub fn faults(&self) -> u64
        ensures { result ≡ self.now.faults }
    {
        self.faults.count()
    }
}

impl<D: Disk> Disk for LentDisk<D> {
    ghost told = { λ d. D.told d.disk };

    ghost seen = { λ d. D.seen d.disk };

    ghost may_leave = { λ d. D.may_leave d.disk };

    ghost moment = { λ d. D.moment d.disk };

    ghost left_since = { λ d. D.left_since d.disk };

    ghost faults = { λ d. d.faults };

    ghost stops = { λ d. D.stops d.disk };

    ghost stop = { λ d. D.stop d.disk };

    ghost short = { λ d. D.short d.disk };

    ghost reads_now = { λ d. D.reads_now d.disk };

    ghost rests = { λ d. D.rests d.disk };

    ghost counts_now = { λ d. D.counts_now d.disk };

    ghost only_now = { λ d. D.only_now d.disk };

    fn size(&mut self) -> Result<u64, Failed> {
        match self.disk.size() {
            Ok(size) => Ok(size),
            Err(_) => Err(self.faults.raise()),
        }
    }

    fn read_at(&mut self, at: u64, buf: &mut [u8]) -> Result<usize, Failed> {
        match self.disk.read_at(at, buf) {
            Ok(count) => Ok(count),
            Err(_) => Err(self.faults.raise()),
        }
    }

    fn write_at(&mut self, at: u64, bytes: &[u8]) -> Result<(), Failed> {
        match self.disk.write_at(at, bytes) {
            Ok(()) => Ok(()),
            Err(_) => Err(self.faults.raise()),
        }
    }

    fn cut(&mut self, size: u64) -> Result<(), Failed> {
        match self.disk.cut(size) {
            Ok(()) => Ok(()),
            Err(_) => Err(self.faults.raise()),
        }
    }

    fn sync(&mut self) -> Result<(), Failed> {
        match self.disk.sync() {
            Ok(()) => Ok(()),
            Err(_) => Err(self.faults.raise()),
        }
    }

    fn stop_after(&mut self, calls: u64, fill: u8) {
        self.disk.stop_after(calls, fill);
    }
}
