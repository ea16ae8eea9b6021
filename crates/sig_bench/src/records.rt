use crate::Stopped;
use base64::engine::general_purpose::URL_SAFE_NO_PAD;
use sig_entry::{DecodeFault, decode, encode};
use sig_terms::Fact;
use std::alloc::Global;

/// Decodes the record that a word of base64url spells, so often.
pub fn decode_records(alloc: Global, count: u64, word: &str) -> Result<u64, Stopped> {
    let bytes = spelled(alloc, word)?;
    for _ in 0..count {
        drop(decode_one(alloc, bytes.as_slice())?);
    }
    Ok(count)
}

/// Encodes the fact of the record that a word of base64url spells, so often.
pub fn encode_records(alloc: Global, count: u64, word: &str) -> Result<u64, Stopped> {
    let bytes = spelled(alloc, word)?;
    let fact = decode_one(alloc, bytes.as_slice())?;
    let told = encode_often(alloc, count, &fact);
    drop(fact);
    told
}

fn encode_often(alloc: Global, count: u64, fact: &Fact) -> Result<u64, Stopped> {
    for _ in 0..count {
        encode(alloc, fact)?;
    }
    Ok(count)
}

fn decode_one(alloc: Global, bytes: &[u8]) -> Result<Fact, Stopped> {
    match decode(alloc, bytes) {
        Ok(fact) => Ok(fact),
        Err(DecodeFault::Bad(_)) => Err(Stopped::Record),
        Err(DecodeFault::Memory) => Err(Stopped::Memory),
    }
}

fn spelled(alloc: Global, word: &str) -> Result<Vec<u8>, Stopped> {
    match URL_SAFE_NO_PAD.decode(alloc, word.as_bytes()) {
        Ok(bytes) => Ok(bytes),
        Err(_) => Err(Stopped::Words),
    }
}
