ghost use Rattle.std.specs.Prelude.{◌≡◌, ◌<◌, ◌^◌, length, IfOk};
ghost use Rattle.sig_journal.specs.Heading as spec;

use crate::Kind;
use crate::layout::{HEADER_BYTES, MAGIC, VERSION};
use sig_json::Memory;
use std::alloc::Global;

/// What the header of a file says of its store: whose it is, the file's generation, and the store's name.
#[derive(Clone, Copy)]
pub struct Heading {
    pub kind: Kind,
    pub generation: u64,
    pub store_id: [u8; 16],
}

/// The bytes of a file after its header gate: a header, a snapshot of fewer than 2^32 bytes, and no record.
pub fn file_bytes(alloc: Global, header: Heading, snapshot: &[u8]) -> Result<Vec<u8>, Memory>
    requires { length snapshot.now < 2 ^ 32 }
    ensures bytes { IfOk result (λ bytes. bytes.items ≡ spec.file_bytes header.kind header.generation header.store_id snapshot.now) }
    ensures named { length header.store_id ≡ 16 }
{
    let mut bytes = Vec::with_capacity(alloc, HEADER_BYTES + snapshot.len())?;
    bytes.extend_from_slice(&MAGIC)?;
    bytes.push(VERSION)?;
    bytes.push(header.kind.byte())?;
    bytes.extend_from_slice(&header.generation.to_be_bytes())?;
    bytes.extend_from_slice(&header.store_id)?;
    bytes.extend_from_slice(&(snapshot.len() as u32).to_be_bytes())?;
    bytes.extend_from_slice(snapshot)?;
    bytes.push(0)?;
    Ok(bytes)
}
