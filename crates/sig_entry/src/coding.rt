ghost use Rattle.std.specs.Prelude.{◌≡◌, IfOk};
ghost use Rattle.sig_json.specs.Answers.{Answers};
ghost use Rattle.sig_entry.specs.Facts.{decoded, spelling_of};

use crate::facts::FactField;
use sig_fields::{DecodeFault, read_whole, spell};
use sig_json::{Bytes, Memory};
use sig_terms::Fact;
use std::alloc::Global;

/// The bytes of a fact, as a record of the transmitter's journal holds them.
///
/// A text of 2^32 bytes or more and a list of as many items have no spelling, and nothing reads their bytes back.
pub fn encode(alloc: Global, fact: &Fact) -> Result<Bytes, Memory>
    ensures { IfOk result (λ b. b ≡ spelling_of fact.now) }
{
    spell::<FactField>(alloc, fact)
}

/// The fact that bytes spell.
///
/// `Bad` comes exactly where they spell none, with the offset of the first part that is cut or breaks its rule; where
/// there is none, with that of the first byte after the last field. The parts are the kind, numbers, flags, statuses,
/// counts and texts, in the order of the bytes. A time is at most 2^62 and an interval at most 86,400 seconds. A URL
/// spells an endpoint, a URI is that of a type that transmitters publish, and a subject and a payload are the JSON texts
/// that are written of what they are read as.
pub fn decode(alloc: Global, bytes: &[u8]) -> Result<Fact, DecodeFault>
    ensures { Answers DecodeFault.Memory result (decoded bytes.now) }
{
    read_whole::<FactField>(alloc, bytes)
}
