ghost use Rattle.std.specs.Prelude.{◌≡◌, IfOk};
ghost use Rattle.sig_json.specs.Answers.{Answers, result_map};
ghost use Rattle.sig_fields.specs.Kinds as kinds;
ghost use Rattle.sig_fields.specs.Reading.{Takes, ruled};
ghost use Rattle.sig_fields.specs.Whole as fields;
ghost use Rattle.sig_rxstate.specs.State.{decoded, kind_in, read_state, spelling_of};

use crate::fields::{PairField, RowField};
use crate::lists::put_list;
use crate::pairs::take_pairs;
use crate::rows::take_rows;
use sig_fields::{DecodeFault, PartFault, Reading};
use sig_inbox::Seen;
use sig_json::{Bytes, Memory};
use sig_sessions::Table;
use std::alloc::Global;

// The one kind of a receiver's snapshots.
const STATE: u8 = 2;

// Room that is asked for at once.
const SPELLING_BYTES: usize = 4_096;

/// The bytes of a receiver's snapshot.
///
/// A text of 2^32 bytes or more has no spelling, and nothing reads its bytes back.
pub fn encode_state(alloc: Global, seen: &Seen, table: &Table) -> Result<Bytes, Memory>
    ensures { IfOk result (λ b. b ≡ spelling_of (seen.now.pairs, table.now.rows)) }
{
    let mut out = Vec::with_capacity(alloc, SPELLING_BYTES)?;
    out.push(STATE)?;
    put_list::<PairField>(alloc, seen.as_slice(), &mut out)?;
    put_list::<RowField>(alloc, table.as_slice(), &mut out)?;
    Ok(Bytes::from_vec(out))
}

/// The pairs and the rows that bytes spell.
///
/// `Bad` comes exactly where they spell none, with the offset of the first part that is cut or breaks its rule; where
/// there is none, with that of the first byte after the last field. The parts are the kind, counts, texts, places and
/// flags, in the order of the bytes; a pair that is there already and a row of a subject that has one are where they
/// begin.
pub fn decode_state(alloc: Global, bytes: &[u8]) -> Result<(Seen, Table), DecodeFault>
    ensures { Answers DecodeFault.Memory (result_map (λ s. (s.0.pairs, s.1.rows)) result) (decoded bytes.now) }
{
    let mut reading = Reading::new(bytes);
    match take_state(alloc, &mut reading) {
        Ok(state) => match reading.rest() {
            [] => Ok(state),
            rest => Err(DecodeFault::Bad(offset_of(bytes, rest))),
        },
        Err(PartFault::Bad) => Err(DecodeFault::Bad(offset_of(bytes, reading.rest()))),
        Err(PartFault::Memory) => Err(DecodeFault::Memory),
    }
}

fn take_state(alloc: Global, bytes: &mut Reading<'_>) -> Result<(Seen, Table), PartFault>
    ensures { Takes (read_state bytes.old) (result_map (λ s. (s.0.pairs, s.1.rows)) result) bytes.new }
{
    take_kind(bytes)?;
    let seen = take_pairs(alloc, bytes)?;
    let table = take_rows(alloc, bytes)?;
    Ok((seen, table))
}

fn take_kind(bytes: &mut Reading<'_>) -> Result<bool, PartFault>
    ensures { Takes (ruled kind_in kinds.byte bytes.old) result bytes.new }
{
    let begun = bytes.rest();
    let byte = bytes.take_byte()?;
    bytes.accept(begun, if byte == STATE { Some(true) } else { None })
}

// The offset at which these bytes are left.
fn offset_of(bytes: &[u8], left: &[u8]) -> u64
    ensures { result ≡ fields.offset_of bytes.now left.now }
{
    bytes.len().saturating_sub(left.len()) as u64
}
