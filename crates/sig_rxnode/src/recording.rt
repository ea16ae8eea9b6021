//! The records of a receiver's journal: how one is made ready, and how one is taken up.

ghost use Rattle.std.specs.Prelude.{◌≡◌, ◌<◌, ◌^◌, ◌++◌, ◌∷◌, [], length, IfOk, IsErrOf, None, OnOk, Some};
ghost use Rattle.sig_entry.specs.Tokens.{token_spelling};
ghost use Rattle.sig_receiver.specs.Receiver.{received};
ghost use Rattle.sig_json.specs.Answers.{Answers};
ghost use Rattle.sig_rxnode.specs.Records.{receiving, text_in, texts_of};

use sig_entry::{decode_token, encode_token};
use sig_fields::DecodeFault;
use sig_journal::{Framed, frame};
use sig_json::{Bytes, Memory, MemoryRefusal};
use sig_past::Past;
use sig_receiver::{Receiver, TakeFault};
use std::alloc::Global;

/// A token text that is to be journalled: its record as it is written, and a copy.
#[derive(Drop)]
pub struct Recorded {
    pub framed: Framed,
    pub entry: Bytes,
}

/// Frames the record of a token text, copies the text, and makes room for it among the entries.
pub fn record_of(alloc: Global, entries: &mut Past<Bytes>, text: &[u8]) -> Result<Recorded, Memory>
    requires { length text.now < 2 ^ 31 }
    ensures made { IfOk result (λ r. (r.framed ≡ token_spelling text.now) × (r.entry ≡ text.now)) }
    ensures same { entries.new.items ≡ entries.old.items }
    ensures room { OnOk result (length entries.new.items < entries.new.room) }
{
    let payload = encode_token(alloc, text)?;
    let framed = frame(alloc, payload.as_slice())?;
    let entry = Bytes::of(alloc, text)?;
    entries.reserve()?;
    Ok(Recorded { framed, entry })
}

/// Why a record of a store that is loaded was not taken up.
#[derive(Clone, Copy)]
pub enum RecordFault {
    /// It spells no token that says claims.
    Bad,
    /// Out of memory.
    Memory,
}

impl<R: MemoryRefusal> From<R> for RecordFault {
    ghost use Rattle.sig_rxnode.specs.declared.recording.RecordFault.TheVariants.{Memory};

    ghost from_gives = { λ _ e. e ≡ Memory };

    fn from(_refusal: R) -> RecordFault {
        RecordFault::Memory
    }
}

/// The token text of a record.
fn text_of(alloc: Global, payload: &[u8]) -> Result<Bytes, RecordFault>
    ensures { Answers RecordFault.Memory result (text_in payload.now) }
{
    match decode_token(alloc, payload) {
        Ok(text) => Ok(text),
        Err(DecodeFault::Bad(_)) => Err(RecordFault::Bad),
        Err(DecodeFault::Memory) => Err(RecordFault::Memory),
    }
}

/// Takes up the record of a store that is loaded, and puts its text last. `Bad` comes exactly where it spells no token that
/// says claims.
pub fn take_record(
    alloc: Global,
    receiver: &mut Receiver,
    entries: &mut Past<Bytes>,
    payload: &[u8],
) -> Result<(), RecordFault>
    ensures taken { OnOk result (receiving.step (received receiver.old) payload.now ≡ Some (received receiver.new)) }
    ensures entries { OnOk result (entries.new.items ≡ entries.old.items ++ texts_of (payload.now ∷ [])) }
    ensures bad { IsErrOf result RecordFault.Bad → receiving.step (received receiver.old) payload.now ≡ None }
{
    let text = text_of(alloc, payload)?;
    match receiver.take_up(text.as_slice()) {
        Ok(()) => {}
        Err(TakeFault::Bad(_)) => return Err(RecordFault::Bad),
        Err(TakeFault::Memory) => return Err(RecordFault::Memory),
    }
    entries.reserve()?;
    entries.put(&text);
    Ok(())
}
