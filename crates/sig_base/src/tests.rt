//! Snapshots whose bytes were worked out from the tables, and bytes that are none.

use crate::{Base, BaseStream, DecodeFault, decode_base, encode_base};
use sig_json::Memory;
use std::alloc::Global;
use std::test::Fail;

// 01, the counts of no client, stream and publication, none left out, and the count of none that are kept.
const EMPTY: &[u8] =
    b"\x01\0\0\0\0\0\0\0\0\0\0\0\0\0\0\0\0\0\0\0\0\0\0\0\0\0\0\0\0\0\0\0\0\0\0\0\0\0\0\0\0";

// One client, which made two streams.
const CLIENTS: &[u8] = b"\x01\0\0\0\0\0\0\0\x01\0\0\0\x01a\0\0\0\0\0\0\0\x02";

// The one stream: its configuration.
const CONF: &[u8] =
    b"\0\0\0\0\0\0\0\x01\0\0\0\x03a-2\0\0\0\x02tx\0\0\0\x01\0\0\0\x02rp\0\0\0\0\0\0\0\0\0<\x01\0";

// Paused, why, one subject on its list, asked at 5, and three tokens made.
const STANDING: &[u8] =
    b"\x01\x01\0\0\0\x05night\0\0\0\0\0\0\0\x01\0\0\0\x1c{\"format\":\"opaque\",\"id\":\"x\"}\x01\0\0\0\0\0\0\0\x05\0\0\0\0\0\0\0\x03";

// Two of them are owed: the second, of a publication, and the third, of a verification.
const OWED: &[u8] = b"\0\0\0\0\0\0\0\x02";

const SECOND: &[u8] =
    b"\0\0\0\0\0\0\0\x02\0\0\0\0\0\0\0\x07\0\0\0\x1c{\"format\":\"opaque\",\"id\":\"x\"}";

const PURGED: &[u8] =
    b"\0\0\0Bhttps://schemas.openid.net/secevent/risc/event-type/account-purged\0\0\0\x02{}";

const THIRD: &[u8] =
    b"\0\0\0\0\0\0\0\x03\0\0\0\0\0\0\0\x08\0\0\0\x1e{\"format\":\"opaque\",\"id\":\"a-2\"}";

const VERIFIED: &[u8] =
    b"\0\0\0?https://schemas.openid.net/secevent/ssf/event-type/verification\0\0\0\x0d{\"state\":\"s\"}";

// The publication, and the token that it made.
const PUBLICATION: &[u8] =
    b"\0\0\0\0\0\0\0\x01\0\0\0\x01p\0\0\0\x1c{\"format\":\"opaque\",\"id\":\"x\"}";

const ISSUED: &[u8] = b"\0\0\0\0\0\0\0\x01\0\0\0\x03a-2\0\0\0\0\0\0\0\x02";

// Four were left out, and one is kept.
const REFUSALS: &[u8] =
    b"\0\0\0\0\0\0\0\x04\0\0\0\0\0\0\0\x01\0\0\0\x03a-1\0\0\0\0\0\0\0\x09\x01\0\0\0\x01p\0\0\0\0\0\0\0\0\x06";

// All of it, in 589 bytes.
fn snapshot(alloc: Global) -> Result<Vec<u8>, Memory> {
    let mut bytes = Vec::new(alloc);
    for part in [
        CLIENTS,
        CONF,
        STANDING,
        OWED,
        SECOND,
        PURGED,
        THIRD,
        VERIFIED,
        PUBLICATION,
        PURGED,
        ISSUED,
        REFUSALS,
    ] {
        bytes.extend_from_slice(part)?;
    }
    Ok(bytes)
}

// Whether the bytes are read, and written again.
fn stand_for_a_base(alloc: Global, bytes: &[u8]) -> Result<bool, DecodeFault> {
    let base = decode_base(alloc, bytes)?;
    let spelt = encode_base(alloc, &base)?;
    Ok(spelt.as_slice() == bytes)
}

fn is_the_stream(stream: &BaseStream) -> bool {
    stream.made == 3
        && stream.asked == Some(5)
        && stream.conf.interval == 60
        && stream.owed.as_slice().len() == 2
}

fn is_the_base(base: &Base) -> bool {
    match (base.streams.as_slice(), base.refusals.kept.as_slice()) {
        ([stream], [refused]) => {
            is_the_stream(stream) && base.refusals.before == 4 && refused.number == 9
        }
        _ => false,
    }
}

// Where the bytes are refused, if they are.
fn refused_at(alloc: Global, bytes: &[u8]) -> Option<u64> {
    match decode_base(alloc, bytes) {
        Err(DecodeFault::Bad(at)) => Some(at),
        _ => None,
    }
}

#[test]
fn bases_have_their_bytes(rt: HostRuntime) -> Result<(), Fail> {
    let alloc = rt.alloc();
    let bytes = snapshot(alloc)?;
    assert!(rt; stand_for_a_base(alloc, EMPTY)?);
    assert!(rt; stand_for_a_base(alloc, bytes.as_slice())?);
    assert!(rt; is_the_base(&decode_base(alloc, bytes.as_slice())?));
    Ok(())
}

#[test]
fn a_fault_is_named_by_its_first_byte(rt: HostRuntime) -> Result<(), Fail> {
    let alloc = rt.alloc();
    for (bytes, at) in [
        (b"" as &[u8], 0),
        (b"\x02\0\0\0\0\0\0\0\0", 0),
        (b"\x01\0\0\0\0\0\0\0", 1),
        (b"\x01\0\0\0\0\0\0\0\x01\0\0\0\x01a\0\0", 14),
        (&EMPTY[..33], 33),
        (
            b"\x01\0\0\0\0\0\0\0\0\0\0\0\0\0\0\0\0\0\0\0\0\0\0\0\0\0\0\0\0\0\0\0\0\0\0\0\0\0\0\0\0\0",
            41,
        ),
    ] {
        assert_eq!(rt; refused_at(alloc, bytes), Some(at), "of {at}");
    }
    Ok(())
}
