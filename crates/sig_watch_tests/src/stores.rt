//! Stores in memory without a record.

use sig_json::{Bytes, Items, Memory};
use sig_outside::MemDisk;
use std::alloc::Global;
use std::ops::Range;

// The first file of a transmitter's store without a record.
const EMPTY: [u8; 36] = [
    0x5a, 0x53, 0x49, 0x47, 0x4a, 1, 0x54, 0, 0, 0, 0, 0, 0, 0, 0, 0x6b, 0xa7, 0xb8, 0x10, 0x9d,
    0xad, 0x11, 0xd1, 0x80, 0xb4, 0x00, 0xc0, 0x4f, 0xd4, 0x30, 0xc8, 0, 0, 0, 0, 0,
];

/// Both files of a store.
#[derive(Drop)]
pub struct Files {
    /// The first one.
    pub a: MemDisk,
    /// The second one.
    pub b: MemDisk,
}

// A disk of which these calls fail, by their numbers from 0.
fn disk(alloc: Global, bytes: &[u8], failing: Range<u64>) -> Result<MemDisk, Memory> {
    let mut numbers = Vec::new(alloc);
    for number in failing {
        numbers.push(number)?;
    }
    Ok(MemDisk::new(alloc, Bytes::of(alloc, bytes)?, Items::of(numbers)))
}

/// A store of this kind without a record, `T` or `R`, of whose two disks these calls fail.
pub fn store(alloc: Global, kind: u8, failing: Range<u64>) -> Result<Files, Memory> {
    let mut bytes = EMPTY;
    bytes[6] = kind;
    let b = disk(alloc, b"\0", failing.start..failing.end)?;
    let a = disk(alloc, &bytes, failing)?;
    Ok(Files { a, b })
}
