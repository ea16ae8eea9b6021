//! The two files of a receiver's store in memory.

use sig_journal::{Kind, LoadRefused, make};
use sig_json::{Bytes, Items, Memory};
use sig_outside::MemDisk;
use sig_rxnode::{RxNode, RxRules};
use std::alloc::Global;

/// The store's id, 6ba7b811-9dad-11d1-80b4-00c04fd430c8.
const STORE_ID: [u8; 16] = [
    0x6b, 0xa7, 0xb8, 0x11, 0x9d, 0xad, 0x11, 0xd1, 0x80, 0xb4, 0x00, 0xc0, 0x4f, 0xd4, 0x30, 0xc8,
];

/// Both files of a store.
#[derive(Drop)]
pub struct Files {
    /// The first one.
    pub a: MemDisk,
    /// The second one.
    pub b: MemDisk,
}

/// A store without a token. A disk in memory fails only where it is refused memory.
pub fn empty_store(alloc: Global) -> Result<Files, Memory> {
    let mut a = MemDisk::new(alloc, Bytes::new(alloc), Items::of(Vec::new(alloc)));
    let mut b = MemDisk::new(alloc, Bytes::new(alloc), Items::of(Vec::new(alloc)));
    match make(&mut a, &mut b, Kind::Rx, STORE_ID) {
        Ok(()) => Ok(Files { a, b }),
        Err(_) => Err(Memory),
    }
}

/// The node of a store.
pub fn node_over(alloc: Global, files: Files, rules: &RxRules) -> Result<RxNode<MemDisk>, Memory> {
    let rules = rules.copy(alloc)?;
    let Files { a, b } = files;
    match RxNode::load(alloc, a, b, rules) {
        Ok(node) => Ok(node),
        Err(refused) => {
            let LoadRefused { fault: _, a, b } = refused;
            drop(a);
            drop(b);
            Err(Memory)
        }
    }
}

/// The files of a node.
pub fn files_of(node: RxNode<MemDisk>) -> Files {
    let (a, b) = node.into_disks();
    Files { a, b }
}
