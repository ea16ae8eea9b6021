ghost use Rattle.std.specs.Prelude.{◌≡◌, ◌<◌, ◌≤◌, ◌+◌, ◌^◌, ℕ, List, length, IfOk};
ghost use Rattle.sig_json.specs.Answers.{Answers, result_map};
ghost use Rattle.sig_journal.specs.Layout as layout;
ghost use Rattle.sig_journal.specs.Layout.{places_of, records_of, records_size};
ghost use Rattle.sig_journal.specs.Records.{NextIs, next_view};
ghost use Rattle.sig_journal.specs.Records.Found.{Nothing};
ghost use Rattle.sig_journal.specs.Store.{in_file_at};
ghost use Rattle.sig_json.specs.declared.limits.TheConstants.{LAST_NUMBER};

use crate::LoadFault;
use crate::header::{field, number_in_4};
use crate::layout::{GATE_OPEN, RECORD_HEAD_BYTES};
use sig_json::Bytes;
use sig_json::limits::LAST_NUMBER;
use std::alloc::Global;

/// The records of a file, the places of their gates, and the place of the gate that ends them.
#[derive(Drop)]
pub struct Records {
    pub payloads: Vec<Bytes>,
    pub places: Vec<u64>,
    pub last: u64,
}

/// What stands at a gate: nothing more, a record and the bytes after it, or damage.
#[derive(Clone, Copy)]
pub enum Next<'a> {
    End,
    Damaged,
    Record { payload: &'a [u8], after: &'a [u8] },
}

// Whether the first byte is an open gate.
fn is_open(bytes: &[u8]) -> bool
    ensures { result ≡ layout.is_open bytes.now }
{
    match bytes {
        [] => false,
        [gate, ..] => *gate == GATE_OPEN,
    }
}

/// What stands at the gate that is first in these bytes, and stands at this place in the file.
pub fn next_record(bytes: &[u8], place: u64) -> Next<'_>
    ensures next { NextIs place bytes.now (next_view result) }
    ensures near { next_view result ≡ Nothing → place < LAST_NUMBER }
{
    if place >= LAST_NUMBER || bytes.is_empty() {
        return Next::Damaged;
    }
    if !is_open(bytes) {
        return Next::End;
    }
    let size = RECORD_HEAD_BYTES + number_in_4(field(bytes, 1, 4)) as usize;
    if bytes.len() <= size {
        return Next::Damaged;
    }
    let (whole, after) = bytes.split_at(size);
    Next::Record {
        payload: whole.split_at(RECORD_HEAD_BYTES).1,
        after,
    }
}

/// The records of a file, of which these bytes begin with the first gate, at this place.
///
/// `Damaged` comes exactly at the gate where they are no records.
pub fn read_records(alloc: Global, bytes: &[u8], first: u64, file: u8) -> Result<Records, LoadFault>
    requires { first + length bytes.now < 2 ^ 64 }
    ensures records { Answers LoadFault.Memory (result_map (λ r. r.payloads.items) result) (in_file_at file (records_of (length bytes.now) first bytes.now)) }
    ensures places { IfOk result (λ r. (r.places.items ≡ places_of first r.payloads.items) × (r.last ≡ first + records_size r.payloads.items)) }
    ensures bound { IfOk result (λ r. r.last < LAST_NUMBER) }
{
    let mut payloads = Vec::new(alloc);
    let mut places = Vec::new(alloc);
    let mut place = first;
    let mut rest = bytes;
    loop {
        match next_record(rest, place) {
            Next::End => break,
            Next::Damaged => return Err(LoadFault::Damaged { file, at: place }),
            Next::Record { payload, after } => {
                payloads.push(Bytes::of(alloc, payload)?)?;
                places.push(place)?;
                place += (RECORD_HEAD_BYTES + payload.len()) as u64;
                rest = after;
            }
        }
    }
    Ok(Records {
        payloads,
        places,
        last: place,
    })
}
