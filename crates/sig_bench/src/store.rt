ghost use Rattle.std.specs.Prelude.{◌≤◌};

use crate::Stopped;
use sig_journal::{
    AppendFault, GATE_OPEN, Kind, LoadFault, LoadRefused, Loaded, MakeFault, frame, load, make,
};
use sig_outside::Disk;
use sig_system::FileDisk;
use std::alloc::Global;
use std::fs::{File, Files};

/// Opens both files of a store.
pub(crate) fn open_files<R: Files<File = File>>(
    rt: &R,
    a: &str,
    b: &str,
) -> Result<(FileDisk, FileDisk), Stopped> {
    let Ok(a) = FileDisk::open(rt, a) else {
        return Err(Stopped::Open);
    };
    let Ok(b) = FileDisk::open(rt, b) else {
        return Err(Stopped::Open);
    };
    Ok((a, b))
}

/// Opens both files of a store, which is made where there is none.
pub(crate) fn open_store<R: Files<File = File>>(
    rt: &R,
    a: &str,
    b: &str,
    kind: Kind,
) -> Result<(FileDisk, FileDisk), Stopped> {
    let (mut a, mut b) = open_files(rt, a, b)?;
    match make(&mut a, &mut b, kind, [0; 16]) {
        Ok(()) | Err(MakeFault::Taken(_)) => Ok((a, b)),
        Err(MakeFault::Store) => Err(Stopped::Store),
    }
}

/// Why a store couldn't be loaded; both files are closed.
pub(crate) fn load_stopped(refused: LoadRefused<FileDisk>) -> Stopped {
    let LoadRefused { fault, a: _, b: _ } = refused;
    match fault {
        LoadFault::Store => Stopped::Store,
        LoadFault::Damaged { file, at } => Stopped::Damaged { file, at },
        LoadFault::Memory => Stopped::Memory,
    }
}

/// How many records a store has.
pub fn count_records<R: Files<File = File>>(
    alloc: Global,
    rt: &R,
    a: &str,
    b: &str,
) -> Result<u64, Stopped> {
    let (a, b) = open_files(rt, a, b)?;
    match load(alloc, a, b, Kind::Tx) {
        Err(refused) => Err(load_stopped(refused)),
        Ok(loaded) => {
            let Loaded {
                journal,
                file: _,
                store_id: _,
                snapshot: _,
                records: _,
                places: _,
            } = loaded;
            let count = journal.records();
            // Both files are closed.
            let (_, _) = journal.into_disks();
            Ok(count)
        }
    }
}

/// Appends so many records of so many bytes.
pub fn append_records<R: Files<File = File>>(
    alloc: Global,
    rt: &R,
    a: &str,
    b: &str,
    count: u64,
    size: u64,
) -> Result<u64, Stopped>
    requires { size ≤ 1000000 }
{
    let (a, b) = open_store(rt, a, b, Kind::Tx)?;
    let Ok(payload) = vec![in alloc; 0x61u8; size as usize] else {
        return Err(Stopped::Memory);
    };
    let Ok(framed) = frame(alloc, payload.as_slice()) else {
        return Err(Stopped::Memory);
    };
    let loaded = match load(alloc, a, b, Kind::Tx) {
        Ok(loaded) => loaded,
        Err(refused) => return Err(load_stopped(refused)),
    };
    let Loaded {
        mut journal,
        file: _,
        store_id: _,
        snapshot: _,
        records: _,
        places: _,
    } = loaded;
    let mut ended = Ok(count);
    for _ in 0..count {
        match journal.append(&framed) {
            Ok(_) => {}
            Err(AppendFault::Store) => {
                ended = Err(Stopped::Store);
                break;
            }
            Err(AppendFault::Full(_)) => {
                ended = Err(Stopped::Full);
                break;
            }
        }
    }
    // Both files are closed.
    let (_, _) = journal.into_disks();
    ended
}

/// Makes a store with so many records of so many bytes, and syncs it once they are all written.
pub fn fill_store<R: Files<File = File>>(
    alloc: Global,
    rt: &R,
    a: &str,
    b: &str,
    count: u64,
    size: u64,
) -> Result<u64, Stopped>
    requires { size ≤ 1000000 }
{
    let (mut a, _b) = open_store(rt, a, b, Kind::Tx)?;
    let Ok(bytes) = records_of(alloc, count, size) else {
        return Err(Stopped::Memory);
    };
    if a.write_at(35, bytes.as_slice()).is_err() || a.sync().is_err() {
        return Err(Stopped::Store);
    }
    Ok(count)
}

// So many records, each behind its open gate, and the closed gate that ends them.
fn records_of(alloc: Global, count: u64, size: u64) -> Result<Vec<u8>, sig_json::Memory>
    requires { size ≤ 1000000 }
{
    let mut bytes = Vec::new(alloc);
    for _ in 0..count {
        bytes.push(GATE_OPEN)?;
        bytes.extend_from_slice(&(size as u32).to_be_bytes())?;
        for _ in 0..size {
            bytes.push(0x61)?;
        }
    }
    bytes.push(0)?;
    Ok(bytes)
}
