//! A transmitter's store in memory: a push stream, and a token that it owes.

use sig_json::{Bytes, Items, Memory, Text};
use sig_memory_links::NamedDisk;
use sig_outside::MemDisk;
use std::alloc::Global;

// The first file of a transmitter's store, up to the gate of its first record.
const HEAD: &[u8] =
    b"\x5aSIGJ\x01T\0\0\0\0\0\0\0\0\x6b\xa7\xb8\x10\x9d\xad\x11\xd1\x80\xb4\x00\xc0\x4f\xd4\x30\xc8\0\0\0\0";

// The record that a stream was made which is pushed to http://rp.example/events.
const CREATED: &[u8] =
    b"Z\x00\x00\x00m\x01\x00\x00\x00\x06acme-1\x00\x00\x00\x13https://idp.example\x00\x00\x00\x01\x00\x00\x00\x12https://rp.example\x00\x01\x00\x00\x00\x18http://rp.example/events\x00\x00\x00\x00\x00\x00\x00\x00<\x01\x00\x00\x00\x00\x00\x00\x00\x00Z";

// The record that a token was published, which the stream owes.
const PUBLISHED: &[u8] =
    b"Z\x00\x00\x00\xa1\x07\x00\x00\x00$6ba7b812-9dad-11d1-80b4-00c04fd430c8\x00\x00\x00\x1f{\"format\":\"opaque\",\"id\":\"s-77\"}\x00\x00\x00Chttps://schemas.openid.net/secevent/caep/event-type/session-revoked\x00\x00\x00\x02{}\x00\x00\x00\x00\x00\x00\x00c";

fn first_file(alloc: Global) -> Result<Vec<u8>, Memory> {
    let mut file = Vec::new(alloc);
    file.extend_from_slice(HEAD)?;
    file.extend_from_slice(CREATED)?;
    file.extend_from_slice(PUBLISHED)?;
    file.push(0)?;
    Ok(file)
}

fn named(alloc: Global, name: &str, bytes: &[u8]) -> Result<NamedDisk, Memory> {
    let none = Items::of(Vec::new(alloc));
    Ok(NamedDisk {
        name: Text::of(alloc, name)?,
        disk: MemDisk::new(alloc, Bytes::of(alloc, bytes)?, none),
    })
}

/// Both files of the store `tx`.
pub fn owing_store(alloc: Global) -> Result<Items<NamedDisk>, Memory> {
    let file = first_file(alloc)?;
    let mut files = Vec::new(alloc);
    files.push(named(alloc, "tx.a", file.as_slice())?)?;
    files.push(named(alloc, "tx.b", b"\0")?)?;
    Ok(Items::of(files))
}
