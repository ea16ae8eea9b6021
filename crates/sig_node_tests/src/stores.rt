//! Stores in memory whose first file, the one in force, fails at one of its calls.

use sig_json::{Bytes, Items, Memory};
use sig_outside::MemDisk;
use std::alloc::Global;

// The first file of a transmitter's store without a record.
const EMPTY: [u8; 36] = [
    0x5a, 0x53, 0x49, 0x47, 0x4a, 1, 0x54, 0, 0, 0, 0, 0, 0, 0, 0, 0x6b, 0xa7, 0xb8, 0x10, 0x9d,
    0xad, 0x11, 0xd1, 0x80, 0xb4, 0x00, 0xc0, 0x4f, 0xd4, 0x30, 0xc8, 0, 0, 0, 0, 0,
];

/// Both files of a store.
#[derive(Drop)]
pub struct Files {
    /// The first one.
    pub a: MemDisk,
    /// The second one.
    pub b: MemDisk,
}

fn disk(alloc: Global, bytes: &[u8], failing: Option<u64>) -> Result<MemDisk, Memory> {
    let mut calls = Vec::new(alloc);
    if let Some(call) = failing {
        calls.push(call)?;
    }
    Ok(MemDisk::new(alloc, Bytes::of(alloc, bytes)?, Items::of(calls)))
}

/// A store of this kind without a record, `T` or `R`, whose first file fails at this call, counted from 0.
///
/// Loading a node makes four calls of it, and each record that is added four more: its bytes are written and synced, and
/// then the gate before them.
pub fn store(alloc: Global, kind: u8, failing: u64) -> Result<Files, Memory> {
    let mut bytes = EMPTY;
    bytes[6] = kind;
    let b = disk(alloc, b"\0", None)?;
    let a = disk(alloc, &bytes, Some(failing))?;
    Ok(Files { a, b })
}

/// Files that have the same bytes, and don't fail.
pub fn mended(alloc: Global, files: &Files) -> Result<Files, Memory> {
    let b = disk(alloc, files.b.image()?.as_slice(), None)?;
    let a = disk(alloc, files.a.image()?.as_slice(), None)?;
    Ok(Files { a, b })
}
