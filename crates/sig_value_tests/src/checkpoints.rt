//! Checkpoints by hand: what a store holds after one, after each stop of one, and which snapshot is refused.

use crate::journal::{EMPTY, Outcome, deletion, disk, journal_of, rested};
use sig_journal::{CheckFault, Framed, GATE_OPEN, Journal, Kind, LoadRefused, Loaded, load};
use sig_json::{Bytes, Memory};
use sig_outside::{Disk, MemDisk};
use std::alloc::Global;
use std::test::Fail;

const SNAPSHOT: &[u8] = b"acme-1 was removed";

// A record of one byte after the empty store's snapshot, and the gate after it.
const RECORD: &[u8] = b"\x5a\x00\x00\x00\x01x\x00";

// The first file of a transmitter's store of this generation with one record.
fn first_file(alloc: Global, generation: u64) -> Result<Bytes, Memory> {
    let (front, rest) = EMPTY.as_slice().split_at(7);
    let mut file = Bytes::of(alloc, front)?;
    file.add(generation.to_be_bytes().as_slice())?;
    file.add(rest.split_at(8).1.split_at(20).0)?;
    file.add(RECORD)?;
    Ok(file)
}

// Why a snapshot was not written.
fn fault_of<D: Disk>(alloc: Global, journal: &mut Journal<D>) -> Option<CheckFault> {
    if journal.is_broken() {
        return Some(CheckFault::Store);
    }
    journal.checkpoint(alloc, SNAPSHOT).err()
}

// The same where the disks stand still after so many calls, and the disks.
fn checked<D: Disk>(
    alloc: Global,
    loaded: Loaded<D>,
    calls: u64,
    fill: u8,
) -> (Option<CheckFault>, D, D) {
    let (mut journal, _) = journal_of(loaded);
    journal.stop_after(calls, fill);
    let fault = fault_of(alloc, &mut journal);
    let (a, b) = journal.into_disks();
    (fault, a, b)
}

// The same of a store of these files, which stay as they are where it can't be loaded.
fn checkpoint<D: Disk>(
    alloc: Global,
    files: (D, D),
    calls: u64,
    fill: u8,
) -> (Option<CheckFault>, D, D) {
    let (a, b) = files;
    match load(alloc, a, b, Kind::Tx) {
        Ok(loaded) => checked(alloc, loaded, calls, fill),
        Err(LoadRefused { fault: _, a, b }) => (Some(CheckFault::Store), a, b),
    }
}

// Why a snapshot was not written in a store of this generation whose other file has these bytes, and the disks.
fn stopped(
    alloc: Global,
    generation: u64,
    other: &[u8],
    calls: u64,
    fill: u8,
) -> Result<(Option<CheckFault>, MemDisk, MemDisk), Memory> {
    let first = first_file(alloc, generation)?;
    let files = (
        disk(alloc, first.as_slice(), None)?,
        disk(alloc, other, None)?,
    );
    Ok(checkpoint(alloc, files, calls, fill))
}

// Whether a stop leaves the record, or the snapshot exactly where the gate before it is open then. So many calls are needed.
fn is_there_or_not(
    alloc: Global,
    other: &[u8],
    needed: u64,
    calls: u64,
    fill: u8,
) -> Result<bool, Memory> {
    let (fault, a, b) = stopped(alloc, 0, other, calls, fill)?;
    let is_turned = calls.checked_add(1) == Some(needed) && fill == GATE_OPEN;
    let held = Outcome::Held {
        file: u8::from(is_turned),
        records: u64::from(!is_turned),
    };
    Ok(fault == Some(CheckFault::Store) && rested(alloc, &a, &b)? == held)
}

// Other files, one whose gate is closed and one whose gate is open, and how many calls a checkpoint makes beside each.
const OTHERS: [(&[u8], u64); 2] = [(b"\0", 5), (&EMPTY, 7)];

#[test]
fn a_stop_leaves_the_records_or_the_snapshot(rt: HostRuntime) -> Result<(), Fail> {
    for (other, needed) in OTHERS {
        for calls in 0..needed {
            for fill in [0x00, GATE_OPEN, 0xff] {
                assert!(rt;
                    is_there_or_not(rt.alloc(), other, needed, calls, fill)?,
                    "{calls} of {needed} calls, {fill}"
                );
            }
        }
    }
    Ok(())
}

// What loading gives after a checkpoint beside this file, all of whose calls are made.
fn done(alloc: Global, other: &[u8], needed: u64) -> Result<Option<Outcome>, Memory> {
    let (fault, a, b) = stopped(alloc, 0, other, needed, 0)?;
    if fault.is_some() {
        return Ok(None);
    }
    Ok(Some(rested(alloc, &a, &b)?))
}

#[test]
fn a_checkpoint_that_is_answered_is_there(rt: HostRuntime) -> Result<(), Fail> {
    let held = Outcome::Held {
        file: 1,
        records: 0,
    };
    for (other, needed) in OTHERS {
        assert!(rt; done(rt.alloc(), other, needed)? == Some(held));
    }
    Ok(())
}

// Where the journal of a store ends with a record more, whose snapshot is the one that was written.
fn end_after<D: Disk + Drop>(loaded: Loaded<D>, framed: &Framed) -> Option<u64> {
    let Loaded {
        mut journal,
        file: _,
        store_id: _,
        snapshot,
        records: _,
        places: _,
    } = loaded;
    let mut end = None;
    if snapshot.as_slice() == SNAPSHOT && !journal.is_broken() {
        end = journal.append(framed).ok();
    }
    let (_, _) = journal.into_disks();
    end
}

// The same after a checkpoint.
fn grown(alloc: Global) -> Result<Option<u64>, Memory> {
    let framed = deletion(alloc)?;
    let (_, a, b) = stopped(alloc, 0, b"\0", 100, 0)?;
    match load(alloc, a, b, Kind::Tx) {
        Ok(loaded) => Ok(end_after(loaded, &framed)),
        Err(
            LoadRefused {
                fault: _,
                a: _,
                b: _,
            },
        ) => Ok(None),
    }
}

#[test]
fn records_follow_a_snapshot(rt: HostRuntime) -> Result<(), Fail> {
    assert!(rt; grown(rt.alloc())? == Some(36 + 18 + 5 + 11));
    Ok(())
}

// Why a store of this generation takes no snapshot.
fn fault_at(alloc: Global, generation: u64) -> Result<Option<CheckFault>, Memory> {
    let (fault, _, _) = stopped(alloc, generation, b"\0", 100, 0)?;
    Ok(fault)
}

#[test]
fn the_last_generation_takes_no_snapshot(rt: HostRuntime) -> Result<(), Fail> {
    let last: u64 = 1 << 62;
    assert!(rt; fault_at(rt.alloc(), last)? == Some(CheckFault::Big(last + 1)));
    assert!(rt; fault_at(rt.alloc(), last - 1)?.is_none());
    Ok(())
}
