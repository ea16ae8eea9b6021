//! Stores by hand: damaged ones, which file is in force, each stop of an append, and disks that fail.

use crate::calls::calls;
use sig_journal::{Framed, GATE_OPEN, Journal, Kind, LoadFault, LoadRefused, Loaded, frame, load};
use sig_json::{Bytes, Memory};
use sig_outside::{Disk, MemDisk};
use std::alloc::Global;
use std::test::Fail;

// The first file of a transmitter's store without a record.
pub const EMPTY: [u8; 36] = [
    0x5a, 0x53, 0x49, 0x47, 0x4a, 1, 0x54, 0, 0, 0, 0, 0, 0, 0, 0, 0x6b, 0xa7, 0xb8, 0x10, 0x9d,
    0xad, 0x11, 0xd1, 0x80, 0xb4, 0x00, 0xc0, 0x4f, 0xd4, 0x30, 0xc8, 0, 0, 0, 0, 0,
];

// What loading a store gives.
#[derive(Clone, Copy, PartialEq, Eq)]
pub enum Outcome {
    Held { file: u8, records: u64 },
    Damaged { file: u8, at: u64 },
    Failed,
    Memory,
}

// A disk with these bytes. One of its calls may be set to fail.
pub fn disk(alloc: Global, bytes: &[u8], failing: Option<u64>) -> Result<MemDisk, Memory> {
    Ok(MemDisk::new(alloc, Bytes::of(alloc, bytes)?, calls(alloc, failing)?))
}

// The journal of a store, and the number of the file in force.
pub fn journal_of<D: Disk>(loaded: Loaded<D>) -> (Journal<D>, u8) {
    let Loaded {
        journal,
        file,
        store_id: _,
        snapshot: _,
        records: _,
        places: _,
    } = loaded;
    (journal, file)
}

fn held<D: Disk + Drop>(loaded: Loaded<D>) -> Outcome {
    let (journal, file) = journal_of(loaded);
    let records = journal.records();
    let (_, _) = journal.into_disks();
    Outcome::Held { file, records }
}

fn refused<D: Drop>(refused: LoadRefused<D>) -> Outcome {
    let LoadRefused { fault, a: _, b: _ } = refused;
    match fault {
        LoadFault::Damaged { file, at } => Outcome::Damaged { file, at },
        LoadFault::Store => Outcome::Failed,
        LoadFault::Memory => Outcome::Memory,
    }
}

fn loaded_as<D: Disk + Drop>(alloc: Global, a: D, b: D) -> Outcome {
    match load(alloc, a, b, Kind::Tx) {
        Ok(loaded) => held(loaded),
        Err(fault) => refused(fault),
    }
}

// What loading files with these bytes gives.
fn outcome_of(alloc: Global, a: &[u8], b: &[u8]) -> Result<Outcome, Memory> {
    Ok(loaded_as(alloc, disk(alloc, a, None)?, disk(alloc, b, None)?))
}

// The first file of the empty store, with these bytes from an offset on.
fn edited(alloc: Global, at: usize, bytes: &[u8]) -> Result<Bytes, Memory> {
    let mut file = Bytes::of(alloc, EMPTY.as_slice().split_at(at.min(36)).0)?;
    file.add(bytes)?;
    Ok(file)
}

// From where on the file has which other bytes, and where it is damaged then.
const DAMAGES: [(usize, &[u8], u64); 11] = [
    (1, b"SIGK", 1),
    (5, b"\x02T", 5),
    (6, b"R", 6),
    (7, b"\x00\x00\x00\x00\x00\x00\x00", 7),
    (7, b"\x40\x00\x00\x00\x00\x00\x00\x01", 7),
    (30, b"", 15),
    (34, b"", 31),
    (31, b"\x00\x00\x00\x01", 35),
    (35, b"", 35),
    (35, b"\x5a", 35),
    (35, b"\x5a\x00\x00\x00\x01x", 35),
];

// Where a store with that first file is damaged.
fn damage(alloc: Global, at: usize, bytes: &[u8]) -> Result<Outcome, Memory> {
    outcome_of(alloc, edited(alloc, at, bytes)?.as_slice(), b"\0")
}

#[test]
fn damage_is_told_at_its_place(rt: HostRuntime) -> Result<(), Fail> {
    for (from, bytes, at) in DAMAGES {
        let told = Outcome::Damaged { file: 0, at };
        assert!(rt; damage(rt.alloc(), from, bytes)? == told, "from {from}");
    }
    Ok(())
}

// Two files, none of which is in force for itself, and the number of the file that is damaged at its first byte.
const NOBODY: [(&[u8], &[u8], u8); 4] = [
    (b"", b"", 0),
    (b"\0", b"", 0),
    (b"", &EMPTY, 0),
    (&EMPTY, b"", 1),
];

#[test]
fn a_file_without_a_byte_is_damaged(rt: HostRuntime) -> Result<(), Fail> {
    for (a, b, file) in NOBODY {
        let told = Outcome::Damaged { file, at: 0 };
        assert!(rt; outcome_of(rt.alloc(), a, b)? == told);
    }
    Ok(())
}

#[test]
fn the_file_with_an_open_gate_is_in_force(rt: HostRuntime) -> Result<(), Fail> {
    let first = Outcome::Held {
        file: 0,
        records: 0,
    };
    assert!(rt; outcome_of(rt.alloc(), &EMPTY, b"\0")? == first);
    let second = Outcome::Held {
        file: 1,
        records: 0,
    };
    assert!(rt; outcome_of(rt.alloc(), b"\0", &EMPTY)? == second);
    Ok(())
}

// What a store gives whose second file has the greater generation, and is cut after it.
fn later_second(alloc: Global) -> Result<Outcome, Memory> {
    let later = edited(alloc, 7, b"\x00\x00\x00\x00\x00\x00\x00\x01")?;
    outcome_of(alloc, &EMPTY, later.as_slice())
}

#[test]
fn of_two_open_files_the_later_one_is_in_force(rt: HostRuntime) -> Result<(), Fail> {
    let cut = Outcome::Damaged { file: 1, at: 15 };
    assert!(rt; later_second(rt.alloc())? == cut);
    Ok(())
}

// The end that is answered where a record is added.
fn end_of<D: Disk>(journal: &mut Journal<D>, framed: &Framed) -> Option<u64> {
    if journal.is_broken() {
        None
    } else {
        journal.append(framed).ok()
    }
}

// The same where the disks stand still after so many calls, and the disks.
fn appended<D: Disk>(
    loaded: Loaded<D>,
    framed: &Framed,
    calls: u64,
    fill: u8,
) -> (Option<u64>, D, D) {
    let (mut journal, _) = journal_of(loaded);
    journal.stop_after(calls, fill);
    let end = end_of(&mut journal, framed);
    let (a, b) = journal.into_disks();
    (end, a, b)
}

// The same to a store of these files, which stay as they are where it can't be loaded.
fn append<D: Disk>(
    alloc: Global,
    files: (D, D),
    framed: &Framed,
    calls: u64,
    fill: u8,
) -> (Option<u64>, D, D) {
    let (a, b) = files;
    match load(alloc, a, b, Kind::Tx) {
        Ok(loaded) => appended(loaded, framed, calls, fill),
        Err(LoadRefused { fault: _, a, b }) => (None, a, b),
    }
}

// What loading gives of what two disks rest with.
pub fn rested(alloc: Global, a: &MemDisk, b: &MemDisk) -> Result<Outcome, Memory> {
    outcome_of(alloc, a.image()?.as_slice(), b.image()?.as_slice())
}

// The end that is answered where a record is added to the empty store, and what loading gives after that.
fn stopped(
    alloc: Global,
    framed: &Framed,
    calls: u64,
    fill: u8,
) -> Result<(Option<u64>, Outcome), Memory> {
    let files = (disk(alloc, &EMPTY, None)?, disk(alloc, b"\0", None)?);
    let (end, a, b) = append(alloc, files, framed, calls, fill);
    Ok((end, rested(alloc, &a, &b)?))
}

// A record of 11 bytes.
pub fn deletion(alloc: Global) -> Result<Framed, Memory> {
    frame(alloc, b"\x06\x00\x00\x00\x06acme-1".as_slice())
}

// Whether a stop leaves the record exactly where the gate before it is open then.
fn is_there_or_not(alloc: Global, calls: u64, fill: u8) -> Result<bool, Memory> {
    let framed = deletion(alloc)?;
    let records = u64::from(calls == 3 && fill == GATE_OPEN);
    Ok(stopped(alloc, &framed, calls, fill)? == (None, Outcome::Held { file: 0, records }))
}

#[test]
fn a_stop_leaves_the_record_or_not(rt: HostRuntime) -> Result<(), Fail> {
    for calls in 0..4u64 {
        for fill in [0x00, GATE_OPEN, 0xff] {
            assert!(rt;
                is_there_or_not(rt.alloc(), calls, fill)?,
                "{calls} calls, {fill}"
            );
        }
    }
    Ok(())
}

// What comes of the append where its four calls are made.
fn done(alloc: Global) -> Result<(Option<u64>, Outcome), Memory> {
    let framed = deletion(alloc)?;
    stopped(alloc, &framed, 4, 0)
}

#[test]
fn a_record_that_is_answered_is_there(rt: HostRuntime) -> Result<(), Fail> {
    let held = Outcome::Held {
        file: 0,
        records: 1,
    };
    assert!(rt; done(rt.alloc())? == (Some(52), held));
    Ok(())
}

// What loading gives where a call of the first disk fails.
fn failing(alloc: Global, call: u64) -> Result<Outcome, Memory> {
    let first = disk(alloc, &EMPTY, Some(call))?;
    Ok(loaded_as(alloc, first, disk(alloc, b"\0", None)?))
}

#[test]
fn a_disk_that_fails_is_no_damage(rt: HostRuntime) -> Result<(), Fail> {
    for call in 0..3u64 {
        assert!(rt;
            failing(rt.alloc(), call)? == Outcome::Failed,
            "call {call}"
        );
    }
    Ok(())
}
