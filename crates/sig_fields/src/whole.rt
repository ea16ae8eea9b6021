ghost use Rattle.std.specs.Prelude.{◌≡◌, IfOk};
ghost use Rattle.sig_json.specs.Answers.{Answers};
ghost use Rattle.sig_fields.specs.Whole.{offset_of, whole};

use crate::{DecodeFault, Field, PartFault, Reading};
use sig_json::{Bytes, Memory};
use std::alloc::Global;

// Room that is asked for at once. Most records fit.
const SPELLING_BYTES: usize = 1_024;

/// The bytes that spell a value.
pub fn spell<F: Field>(alloc: Global, value: &F::Value) -> Result<Bytes, Memory>
    ensures { IfOk result (λ b. b ≡ F.spelled value.now) }
{
    let mut out = Vec::with_capacity(alloc, SPELLING_BYTES)?;
    F::put(alloc, value, &mut out)?;
    Ok(Bytes::from_vec(out))
}

/// The value that bytes spell.
///
/// `Bad` comes exactly where they spell none, with the offset of the first part that is cut or breaks its rule; where
/// there is none, with that of the first byte after the last part.
pub fn read_whole<F: Field>(alloc: Global, bytes: &[u8]) -> Result<F::Value, DecodeFault>
    ensures { Answers DecodeFault.Memory result (whole F.read bytes.now) }
{
    let mut reading = Reading::new(bytes);
    match F::take(alloc, &mut reading) {
        Ok(value) => match reading.rest() {
            [] => Ok(value),
            rest => Err(DecodeFault::Bad(offset_of(bytes, rest))),
        },
        Err(PartFault::Bad) => Err(DecodeFault::Bad(offset_of(bytes, reading.rest()))),
        Err(PartFault::Memory) => Err(DecodeFault::Memory),
    }
}

// The offset at which these bytes are left.
fn offset_of(bytes: &[u8], left: &[u8]) -> u64
    ensures { result ≡ offset_of bytes.now left.now }
{
    bytes.len().saturating_sub(left.len()) as u64
}
