ghost use Rattle.std.specs.Prelude.{◌≡◌};
ghost use Rattle.sig_json.specs.Answers.{Answers};
ghost use Rattle.sig_json.specs.Checks.{first_failing};
ghost use Rattle.sig_set.specs.Checks.{unless_refused};
ghost use Rattle.sig_set.specs.Judgement.{claims_of};
ghost use Rattle.sig_set.specs.Reading.{claims_read, reading_checks};

use crate::audience::audience;
use crate::content::content;
use crate::opening::open;
use crate::refusal::refused;
use crate::{Claims, Code, LastHeader, Refusal, Spot};
use sig_json::MemoryRefusal;
use std::alloc::Global;

/// Why a text gives no claims.
#[derive(Clone, Copy, Debug, PartialEq, Eq)]
pub enum ClaimsFault {
    /// The first check that fails is at this spot.
    Bad(Spot),
    /// Out of memory.
    Memory,
}

impl<R: MemoryRefusal> From<R> for ClaimsFault {
    ghost use Rattle.sig_set.specs.declared.reading.ClaimsFault.TheVariants.{Memory};

    ghost from_gives = { λ _ e. e ≡ Memory };

    fn from(_refusal: R) -> ClaimsFault {
        ClaimsFault::Memory
    }
}

/// The claims of a token's text, without a judgement of its key: for texts that were judged before (RFC 8417, section
/// 2.2).
///
/// The checks are the second row of `judge`, then that `aud` is a text or a list of texts, then the last row with no name
/// given; `Bad` names the spot of the first that fails.
pub fn claims_of(alloc: Global, bytes: &[u8]) -> Result<Claims, ClaimsFault>
    ensures { Answers ClaimsFault.Memory result (claims_read bytes.now) }
{
    claims_of_next(alloc, &mut LastHeader::none(), bytes)
}

/// The same of the next of many texts, with the header that was the last one; whatever that was, the answer is the same.
pub fn claims_of_next(
    alloc: Global,
    last: &mut LastHeader,
    bytes: &[u8],
) -> Result<Claims, ClaimsFault>
    ensures { Answers ClaimsFault.Memory result (claims_read bytes.now) }
{
    match spoken(alloc, last, bytes) {
        Ok(claims) => Ok(claims),
        Err(Refusal::Coded { spot, .. }) => Err(ClaimsFault::Bad(spot)),
        Err(Refusal::Memory) => Err(ClaimsFault::Memory),
    }
}

// The claims of the text, or the refusal of the first check that fails.
fn spoken(alloc: Global, last: &mut LastHeader, bytes: &[u8]) -> Result<Claims, Refusal>
    ensures { Answers Refusal.Memory result (unless_refused (first_failing (reading_checks bytes.now)) (claims_of bytes.now)) }
{
    let opened = open(alloc, last, bytes)?;
    let audience = audience(alloc, &opened.payload)?;
    if audience.is_none() {
        return Err(refused(Code::InvalidAudience, Spot::Aud));
    }
    content(alloc, None, &opened.payload, audience)
}
