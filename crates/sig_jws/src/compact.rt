//! The compact serialization (RFC 7515, section 7.1).

ghost use Rattle.std.specs.Prelude.{◌≡◌, ◌↔◌, ◌==◌, ◌++◌, ◌∷◌, [], IfOk, IfSome, IsTrue, MatchOption};
ghost use Rattle.std.specs.List.{position};
ghost use Rattle.sig_json.specs.Answers.{Answers};
ghost use Rattle.sig_jws.specs.Hmac.{hmac_of};
ghost use Rattle.sig_jws.specs.Compact.{AreParts, cut_at_dots, decoded, dot, parts_of, signed, split_of};

use crate::mac::{MAC_BYTES, hmac, is_mac};
use base64::engine::general_purpose::URL_SAFE_NO_PAD;
use base64::{DecodeAllocError, encoded_len};
use sig_json::{Bytes, Copied, Memory, MemoryRefusal, Same};
use std::alloc::Global;
use thiserror::Error;

/// A text in compact form, decoded: what its three parts hold, and the text that the MAC covers.
#[derive(PartialEq, Eq, Drop)]
pub struct Compact {
    /// The bytes of the header.
    pub header: Bytes,
    /// The bytes of the payload.
    pub payload: Bytes,
    /// The bytes of the MAC.
    pub mac: Bytes,
    /// The first two parts as they stand, with the dot between them.
    pub input: Bytes,
}

/// Why a text has no compact form.
#[derive(Clone, Copy, Debug, PartialEq, Eq, Error)]
pub enum SplitFault {
    /// There are not two dots, or a part is empty.
    #[error("the text has not three parts")]
    Dots,
    /// The first part is no canonical base64url.
    #[error("the header is no base64url")]
    Header,
    /// The second part is none, and the first is.
    #[error("the payload is no base64url")]
    Payload,
    /// The third part is none, and the others are.
    #[error("the MAC is no base64url")]
    Mac,
    /// Out of memory.
    #[error("out of memory")]
    Memory,
}

impl<R: MemoryRefusal> From<R> for SplitFault {
    ghost use Rattle.sig_jws.specs.declared.compact.SplitFault.TheVariants.{Memory};

    ghost from_gives = { λ _ e. e ≡ Memory };

    fn from(_refusal: R) -> SplitFault {
        SplitFault::Memory
    }
}

impl Compact {
    /// An equal value.
    pub fn copy(&self, alloc: Global) -> Result<Compact, Memory>
        ensures { IfOk result (λ c. c ≡ self.now) }
    {
        Ok(Compact {
            header: self.header.copy(alloc)?,
            payload: self.payload.copy(alloc)?,
            mac: self.mac.copy(alloc)?,
            input: self.input.copy(alloc)?,
        })
    }
}

impl Copied for Compact {
    fn copied(&self, alloc: Global) -> Result<Compact, Memory> {
        self.copy(alloc)
    }
}

impl Same for Compact {
    fn same(&self, other: &Compact) -> bool {
        self == other
    }
}

/// The text of header and payload, signed under a key: both in base64url without padding, and the MAC of the two
/// (RFC 7515, section 7.1).
#[tactic(auto, unfolding(crate::specs::Compact::signed))]
pub fn sign(alloc: Global, header: &[u8], payload: &[u8], key: &[u8]) -> Result<Bytes, Memory>
    ensures { IfOk result (λ text. text ≡ signed header.now payload.now key.now) }
{
    let room = part_room(header.len())
        .saturating_add(part_room(payload.len()))
        .saturating_add(part_room(MAC_BYTES))
        .saturating_add(2);
    let mut text = String::with_capacity(alloc, room)?;
    URL_SAFE_NO_PAD.encode_string(header, &mut text)?;
    text.push('.')?;
    URL_SAFE_NO_PAD.encode_string(payload, &mut text)?;
    let mac = hmac(key, text.as_bytes());
    text.push('.')?;
    URL_SAFE_NO_PAD.encode_string(&mac, &mut text)?;
    Ok(Bytes::from_vec(text.into_bytes()))
}

// Bytes that a part takes in the text.
fn part_room(bytes: usize) -> usize {
    encoded_len(bytes, false).unwrap_or(usize::MAX)
}

/// What the three parts of a text hold, and the signing input (RFC 7515, section 5.2, steps 1, 2, 6 and 7).
///
/// `Dots` comes exactly where there are not two dots or a part is empty; else `Header`, `Payload` or `Mac` for the
/// first part that is no canonical base64url: another alphabet, padding, or bits left over that are not zero.
#[tactic(auto, unfolding(crate::specs::Compact::split_of))]
pub fn split(alloc: Global, bytes: &[u8]) -> Result<Compact, SplitFault>
    ensures { Answers SplitFault.Memory result (split_of bytes.now) }
{
    let Some(parts) = three_parts(bytes) else {
        return Err(SplitFault::Dots);
    };
    let header = part_bytes(alloc, parts.header, SplitFault::Header)?;
    let payload = part_bytes(alloc, parts.payload, SplitFault::Payload)?;
    let mac = part_bytes(alloc, parts.mac, SplitFault::Mac)?;
    let input = Bytes::of(alloc, parts.input)?;
    Ok(Compact {
        header,
        payload,
        mac,
        input,
    })
}

// The three parts of a text as they stand, and the first two with their dot.
#[derive(Clone, Copy)]
struct Parts<'a> {
    header: &'a [u8],
    payload: &'a [u8],
    mac: &'a [u8],
    input: &'a [u8],
}

// None exactly where there are not two dots or a part is empty.
fn three_parts(text: &[u8]) -> Option<Parts<'_>>
    ensures { MatchOption result (parts_of (cut_at_dots text.now) ≡ Err SplitFault.Dots) (λ parts.
        AreParts (cut_at_dots text.now) parts.header.now parts.payload.now parts.mac.now parts.input.now) }
{
    let (header, rest) = cut_at_dot(text)?;
    let (payload, mac) = cut_at_dot(rest)?;
    if first_dot(mac).is_some() {
        return None;
    }
    if header.is_empty() || payload.is_empty() || mac.is_empty() {
        return None;
    }
    let input = text.split_at(header.len() + 1 + payload.len()).0;
    Some(Parts {
        header,
        payload,
        mac,
        input,
    })
}

// What stands before the first dot, and what stands after it.
#[tactic(auto, using(crate::proofs::SplitLemmas::cut_at_first, crate::proofs::SplitLemmas::not_cut, crate::proofs::SplitLemmas::whole_at))]
fn cut_at_dot(text: &[u8]) -> Option<(&[u8], &[u8])>
    ensures cut { MatchOption result (cut_at_dots text.now ≡ text.now ∷ []) (λ cut.
        cut_at_dots text.now ≡ cut.0.now ∷ cut_at_dots cut.1.now) }
    ensures whole { IfSome result (λ cut. text.now ≡ cut.0.now ++ dot ∷ cut.1.now) }
{
    let at = first_dot(text)?;
    Some((text.split_at(at).0, text.split_at(at + 1).1))
}

fn first_dot(text: &[u8]) -> Option<usize>
    ensures { result ≡ position (λ b. b == dot) text.now }
{
    text.iter().position(|byte| *byte == b'.')
}

fn part_bytes(alloc: Global, part: &[u8], fault: SplitFault) -> Result<Bytes, SplitFault>
    ensures { Answers SplitFault.Memory result (decoded fault part.now) }
{
    match URL_SAFE_NO_PAD.decode(alloc, part) {
        Ok(bytes) => Ok(Bytes::from_vec(bytes)),
        Err(DecodeAllocError::DecodeError(_)) => Err(fault),
        Err(DecodeAllocError::OutOfMemory) => Err(SplitFault::Memory),
    }
}

/// Whether the MAC is the right one for the signing input (RFC 7515, section 5.2, step 8). All of its bytes are
/// compared, whichever differ (RFC 7518, section 3.2). It takes no memory.
pub fn verifies(token: &Compact, key: &[u8]) -> bool
    ensures { IsTrue result ↔ (token.now.mac ≡ hmac_of key.now token.now.input) }
{
    is_mac(token.mac.as_slice(), &hmac(key, token.input.as_slice()))
}
