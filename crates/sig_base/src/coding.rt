ghost use Rattle.std.specs.Prelude.{◌≡◌, IfOk};
ghost use Rattle.sig_json.specs.Answers.{Answers};
ghost use Rattle.sig_fields.specs.Kinds as kinds;
ghost use Rattle.sig_fields.specs.Reading.{Takes, ruled};
ghost use Rattle.sig_base.specs.Snapshot.{decoded, kind_in, read_base, spelling_of};

use crate::base::Base;
use crate::fields::{ClientField, PublicationField, RefusalsField, StreamField};
use crate::lists::LongList;
use sig_fields::{DecodeFault, Field, PartFault, Reading, read_whole, spell};
use sig_json::{Bytes, Memory};
use std::alloc::Global;

// The one kind of a transmitter's snapshots.
const BASE: u8 = 1;

/// A base: its kind in one byte, and its fields in order.
pub(crate) struct BaseField;

impl Field for BaseField {
    type Value = Base;

    ghost spelled = { spelling_of };

    ghost read = { read_base };

    fn put(alloc: Global, value: &Base, out: &mut Vec<u8>) -> Result<(), Memory> {
        out.push(BASE)?;
        LongList::<ClientField>::put(alloc, &value.clients, out)?;
        LongList::<StreamField>::put(alloc, &value.streams, out)?;
        LongList::<PublicationField>::put(alloc, &value.publications, out)?;
        RefusalsField::put(alloc, &value.refusals, out)
    }

    fn take(alloc: Global, bytes: &mut Reading<'_>) -> Result<Base, PartFault> {
        take_kind(bytes)?;
        let clients = LongList::<ClientField>::take(alloc, bytes)?;
        let streams = LongList::<StreamField>::take(alloc, bytes)?;
        let publications = LongList::<PublicationField>::take(alloc, bytes)?;
        let refusals = RefusalsField::take(alloc, bytes)?;
        Ok(Base {
            clients,
            streams,
            publications,
            refusals,
        })
    }
}

fn take_kind(bytes: &mut Reading<'_>) -> Result<bool, PartFault>
    ensures { Takes (ruled kind_in kinds.byte bytes.old) result bytes.new }
{
    let begun = bytes.rest();
    let byte = bytes.take_byte()?;
    bytes.accept(begun, if byte == BASE { Some(true) } else { None })
}

/// The bytes of a transmitter's snapshot.
///
/// A text of 2^32 bytes or more has no spelling, and nothing reads its bytes back.
pub fn encode_base(alloc: Global, base: &Base) -> Result<Bytes, Memory>
    ensures { IfOk result (λ b. b ≡ spelling_of base.now) }
{
    spell::<BaseField>(alloc, base)
}

/// The base that bytes spell.
///
/// `Bad` comes exactly where they spell none, with the offset of the first part that is cut or breaks its rule; where
/// there is none, with that of the first byte after the last field. The parts are the kind, counts, numbers, flags,
/// statuses and texts, in the order of the bytes. A time is at most 2^62 and an interval at most 86,400 seconds. A URL
/// spells an endpoint, the URI of a publication is that of a type that transmitters publish, and a subject and a payload
/// are the JSON texts that are written of what they are read as.
pub fn decode_base(alloc: Global, bytes: &[u8]) -> Result<Base, DecodeFault>
    ensures { Answers DecodeFault.Memory result (decoded bytes.now) }
{
    read_whole::<BaseField>(alloc, bytes)
}
