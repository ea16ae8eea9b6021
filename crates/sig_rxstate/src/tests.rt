//! Snapshots whose bytes were worked out by hand, and bytes that are none.

use crate::{DecodeFault, decode_state, encode_state};
use sig_inbox::{Pair, Seen};
use sig_json::{Memory, Text};
use sig_sessions::{Account, Device, Opt, Row, Session, Table};
use sig_subject::{Plain, Simple, Subject};
use std::alloc::Global;
use std::test::Fail;

// 02, and the counts of no pairs and no rows.
const EMPTY: &[u8] = b"\x02\0\0\0\0\0\0\0\0\0\0\0\0\0\0\0\0";

// One pair and no row.
const PAIR: &[u8] = b"\x02\0\0\0\0\0\0\0\x01\0\0\0\x03idp\0\0\0\x02j1\0\0\0\0\0\0\0\0";

// No pair, and one row: revoked, enabled, not compliant, to be reset, not stale, opted out, at level 2.
const ROW: &[u8] =
    b"\x02\0\0\0\0\0\0\0\0\0\0\0\0\0\0\0\x01\0\0\0\x1c{\"format\":\"opaque\",\"id\":\"x\"}\x02\x01\x02\x01\0\x03\x01\0\0\0\x012";

// The pair twice, each in 13 bytes, of which the second begins at 22.
const PAIR_TWICE: &[u8] =
    b"\x02\0\0\0\0\0\0\0\x02\0\0\0\x03idp\0\0\0\x02j1\0\0\0\x03idp\0\0\0\x02j1\0\0\0\0\0\0\0\0";

// Two rows of the same subject, each in 39 bytes, of which the second begins at 56.
const SUBJECT_TWICE: &[u8] =
    b"\x02\0\0\0\0\0\0\0\0\0\0\0\0\0\0\0\x02\0\0\0\x1c{\"format\":\"opaque\",\"id\":\"x\"}\x01\0\0\0\0\0\0\0\0\0\x1c{\"format\":\"opaque\",\"id\":\"x\"}\x02\0\0\0\0\0\0";

fn pairs(alloc: Global) -> Result<Seen, Memory> {
    let mut seen = Seen::new(alloc);
    let iss = Text::of(alloc, "idp")?;
    let jti = Text::of(alloc, "j1")?;
    seen.add(Pair { iss, jti })?;
    Ok(seen)
}

fn rows(alloc: Global) -> Result<Table, Memory> {
    let mut table = Table::new(alloc);
    let id = Text::of(alloc, "x")?;
    table.put_row(Row {
        subject: Subject::Simple(Simple::Plain(Plain::Opaque { id })),
        session: Session::Revoked,
        account: Account::Enabled,
        device: Device::NotCompliant,
        reset: true,
        stale: false,
        opt: Opt::Out,
        level: Some(Text::of(alloc, "2")?),
    })?;
    Ok(table)
}

// Whether the bytes are those of this state, and are read as it.
fn stand_for(alloc: Global, bytes: &[u8], seen: &Seen, table: &Table) -> Result<bool, DecodeFault> {
    let spelt = encode_state(alloc, seen, table)?;
    let (pairs, rows) = decode_state(alloc, bytes)?;
    Ok(spelt.as_slice() == bytes && pairs == *seen && rows == *table)
}

// Where the bytes are refused, if they are.
fn refused_at(alloc: Global, bytes: &[u8]) -> Option<u64> {
    match decode_state(alloc, bytes) {
        Err(DecodeFault::Bad(at)) => Some(at),
        _ => None,
    }
}

#[test]
fn states_have_their_bytes(rt: HostRuntime) -> Result<(), Fail> {
    let alloc = rt.alloc();
    let no_pairs = Seen::new(alloc);
    let no_rows = Table::new(alloc);
    assert!(rt; stand_for(alloc, EMPTY, &no_pairs, &no_rows)?);
    assert!(rt; stand_for(alloc, PAIR, &pairs(alloc)?, &no_rows)?);
    assert!(rt; stand_for(alloc, ROW, &no_pairs, &rows(alloc)?)?);
    Ok(())
}

#[test]
fn a_fault_is_named_by_its_first_byte(rt: HostRuntime) -> Result<(), Fail> {
    let alloc = rt.alloc();
    for (bytes, at) in [
        (b"" as &[u8], 0),
        (b"\x01\0\0\0\0\0\0\0\0\0\0\0\0\0\0\0\0", 0),
        (b"\x02\0\0\0\0\0\0\0", 1),
        (b"\x02\0\0\0\0\0\0\0\0\0\0\0\0\0\0\0\0\0", 17),
        (PAIR_TWICE, 22),
        (SUBJECT_TWICE, 56),
    ] {
        assert_eq!(rt; refused_at(alloc, bytes), Some(at), "of {at}");
    }
    Ok(())
}
