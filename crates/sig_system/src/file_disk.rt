ghost use Rattle.std.specs.Prelude.{◌≡◌, ◌≤◌, ℕ, List, length, [], false, None, IfOk, IfSome};
ghost use Rattle.std.specs.Io.{ReadsAtMost};
ghost use Rattle.std.proofs.lemmas.Bool.{false≢true};
ghost use Rattle.sig_outside.specs.Causes.{HasCause};

use libc::{POSIX_FADV_DONTNEED, posix_fadvise};
use sig_outside::{Disk, Failed};
use std::fs::{File, Files, OpenOptions, TryLockError};
use std::io::ErrorKind;
use std::marker::Model;
use std::os::fd::AsRawFd;
use std::os::unix::fs::{FileExt, OpenOptionsExt};
use thiserror::Error;

// A new file is its owner's alone, since a store has bearers and tokens.
const OWNER_ALONE: u32 = 0o600;

/// A file of the system as a disk. Contracts see it as the count of its faults; it tells nothing of its content.
#[derive(Drop)]
pub struct FileDisk {
    file: File,
    faults: u64,
}

impl Model for FileDisk {
    ghost use Rattle.std.specs.Prelude.{ℕ};

    ghost Value = { ℕ };

    ghost view = { λ d. d.faults };
}

/// Why a file could not be opened.
#[derive(Clone, Copy, Debug, PartialEq, Eq, Error)]
pub enum OpenFault {
    /// The system refused it, or syncing it failed.
    #[error("the file can't be opened")]
    Failed,
    /// Another process has it open.
    #[error("the file is in use")]
    InUse,
}

impl FileDisk {
    /// Opens a file, or makes an empty one that its owner alone may read and write. It is locked against every other process
    /// until it is let go, and read as the disk has it.
    pub fn open<R: Files<File = File>>(rt: &R, path: &str) -> Result<FileDisk, OpenFault>
        ensures { IfOk result (λ disk. disk ≡ 0) }
    {
        let opened = OpenOptions::new()
            .read(true)
            .write(true)
            .create(true)
            .mode(OWNER_ALONE)
            .open(rt, path);
        match opened {
            Ok(file) => FileDisk::over(rt, file, path),
            Err(_) => Err(OpenFault::Failed),
        }
    }

    /// Opens a file that is there, as `open` does; none where there is no such file, and then none is made.
    pub fn existing<R: Files<File = File>>(
        rt: &R,
        path: &str,
    ) -> Result<Option<FileDisk>, OpenFault>
        ensures { IfOk result (λ found. IfSome found (λ disk. disk ≡ 0)) }
    {
        match OpenOptions::new().read(true).write(true).open(rt, path) {
            Ok(file) => Ok(Some(FileDisk::over(rt, file, path)?)),
            Err(error) if error.kind() == ErrorKind::NotFound => Ok(None),
            Err(_) => Err(OpenFault::Failed),
        }
    }

    // A file that was opened at this path, once it is locked and read as the disk has it.
    fn over<R: Files<File = File>>(rt: &R, file: File, path: &str) -> Result<FileDisk, OpenFault>
        ensures { IfOk result (λ disk. disk ≡ 0) }
    {
        match file.try_lock() {
            Ok(()) => {}
            Err(TryLockError::WouldBlock) => return Err(OpenFault::InUse),
            Err(TryLockError::Error(_)) => return Err(OpenFault::Failed),
        }
        match settle(rt, &file, path) {
            Some(()) => Ok(FileDisk { file, faults: 0 }),
            None => Err(OpenFault::Failed),
        }
    }

    /// How many calls failed.
    pub fn faults(&self) -> u64
        ensures { result ≡ self.now }
    {
        self.faults
    }

    // Counts a call that failed.
    fn counted<T: Drop>(&mut self, done: Option<T>) -> Result<T, Failed>
        ensures cause { HasCause self.old self.new result }
    {
        match done {
            Some(value) => Ok(value),
            None => {
                self.faults = self.faults.saturating_add(1);
                Err(Failed)
            }
        }
    }
}

impl Disk for FileDisk {
    ghost told = { λ d. false };

    ghost seen = { λ d. [] };

    ghost may_leave = { λ d image. ⊥ };

    ghost moment = { λ d. 0 };

    ghost left_since = { λ d t image. ⊥ };

    ghost faults = { λ d. d };

    ghost stops = { λ d. false };

    ghost stop = { λ d. None };

    ghost short = { λ d. false };

    ghost reads_now = { λ d told. absurd (false≢true told) };

    ghost rests = { λ d. tt };

    ghost counts_now = { λ d t image later now. now };

    ghost only_now = { λ d image left. left };

    fn size(&mut self) -> Result<u64, Failed> {
        let size = self.file.metadata().ok().map(|told| told.len());
        self.counted(size)
    }

    fn read_at(&mut self, at: u64, buf: &mut [u8]) -> Result<usize, Failed> {
        match fill(&self.file, at, buf) {
            Some(count) => Ok(count),
            None => {
                self.faults = self.faults.saturating_add(1);
                Err(Failed)
            }
        }
    }

    fn write_at(&mut self, at: u64, bytes: &[u8]) -> Result<(), Failed> {
        let done = self.file.write_all_at(bytes, at).ok();
        self.counted(done)
    }

    fn cut(&mut self, size: u64) -> Result<(), Failed> {
        let done = shorten(&self.file, size);
        self.counted(done)
    }

    fn sync(&mut self) -> Result<(), Failed> {
        let done = self.file.sync_data().ok();
        self.counted(done)
    }

    // A file of the system never stands still.
    fn stop_after(&mut self, _calls: u64, _fill: u8) {}
}

// Syncs a file and its folder, and has the system forget the pages of the file: a sync that failed in an earlier process may
// have left pages that the disk never got, and that the system takes for synced since.
fn settle<R: Files<File = File>>(rt: &R, file: &File, path: &str) -> Option<()> {
    file.sync_all().ok()?;
    if posix_fadvise(file.as_raw_fd(), 0, 0, POSIX_FADV_DONTNEED) != 0 {
        return None;
    }
    let folder = File::open(rt, folder_of(path)).ok()?;
    folder.sync_all().ok()
}

// The folder of the file at this path.
fn folder_of(path: &str) -> &str {
    match path.rsplit_once('/') {
        Some(("", _)) => "/",
        Some((folder, _)) => folder,
        None => ".",
    }
}

// Cuts a file that is longer.
fn shorten(file: &File, size: u64) -> Option<()> {
    let told = file.metadata().ok()?;
    if told.len() <= size {
        return Some(());
    }
    file.set_len(size).ok()
}

// Reads from an offset until the buffer is full or the file ends, over short reads and interruptions.
fn fill(file: &File, at: u64, buf: &mut [u8]) -> Option<usize>
    ensures { IfSome result (λ count. count ≤ length buf.new) }
{
    let mut count = 0;
    'tries: for _ in 0..u64::MAX {
        if count >= buf.len() {
            break 'tries;
        }
        match file.read_at(&mut buf[count..], at.saturating_add(count as u64)) {
            Ok(0) => break 'tries,
            Ok(more) => count += more,
            Err(error) if error.kind() == ErrorKind::Interrupted => {}
            Err(_) => return None,
        }
    }
    Some(count)
}
