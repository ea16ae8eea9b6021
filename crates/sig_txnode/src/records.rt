//! The records of facts, as a journal holds them.

ghost use Rattle.std.specs.Prelude.{◌≡◌, Ok, IfOk};
ghost use Rattle.sig_entry.specs.Facts.{decoded};
ghost use Rattle.sig_txnode.specs.Records.{IsRecordOf};

use sig_entry::{DecodeFault, decode, encode};
use sig_journal::{Framed, frame};
use sig_json::{Memory, Same};
use sig_terms::Fact;
use std::alloc::Global;

// A record has fewer bytes than this.
const RECORD_BYTES: usize = 4_294_967_296;

/// The record of a fact, and the fact as it is read of the record.
///
/// A fact that isn't read back as it was has no record, as one with 2^32 bytes or with a time that no journal holds; none
/// that a request or a script makes is such. It counts as want of memory.
pub fn recorded(alloc: Global, fact: &Fact) -> Result<(Framed, Fact), Memory>
    ensures record_of { IfOk result (λ r. IsRecordOf fact.now r.0) }
    ensures same { IfOk result (λ r. r.1 ≡ fact.now) }
{
    let bytes = encode(alloc, fact)?;
    if bytes.as_slice().len() >= RECORD_BYTES {
        return Err(Memory);
    }
    let framed = frame(alloc, bytes.as_slice())?;
    let entry = read_back(alloc, bytes.as_slice(), fact)?;
    Ok((framed, entry))
}

// The fact that is read of its record.
fn read_back(alloc: Global, bytes: &[u8], fact: &Fact) -> Result<Fact, Memory>
    ensures reads { IfOk result (λ f. decoded bytes.now ≡ Ok fact.now) }
    ensures same { IfOk result (λ f. f ≡ fact.now) }
{
    match decode(alloc, bytes) {
        Ok(read) => {
            if read.same(fact) {
                Ok(read)
            } else {
                drop(read);
                Err(Memory)
            }
        }
        Err(_) => Err(Memory),
    }
}
