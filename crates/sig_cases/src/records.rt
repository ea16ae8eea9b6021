//! Lines on the records of journals: the bytes of a fact at a transmitter, and of a token at a receiver.

ghost use Rattle.std.specs.Prelude.{◌≡◌, IfOk};
ghost use Rattle.sig_entry.specs.Facts as facts;
ghost use Rattle.sig_entry.specs.Tokens as tokens;
ghost use Rattle.sig_cases.specs.Records as spec;

use sig_entry::{DecodeFault, decode, decode_token, encode, encode_token};
use sig_json::{Bytes, Memory};
use sig_lines::{bare, decoded, encoded, said};
use sig_terms::Fact;
use std::alloc::Global;

/// `ok` and the bytes of the fact, encoded again, or `bad` and the offset of the first part that is cut or breaks its
/// rule; none where the rest is no word of bytes.
pub fn record(alloc: Global, rest: &[u8]) -> Result<Option<Bytes>, Memory> {
    match decoded(alloc, rest)? {
        Some(bytes) => Ok(Some(fact(alloc, bytes.as_slice())?)),
        None => Ok(None),
    }
}

fn fact(alloc: Global, bytes: &[u8]) -> Result<Bytes, Memory>
    ensures { IfOk result (λ t. t ≡ spec.fact_told (facts.decoded bytes.now)) }
{
    match decode(alloc, bytes) {
        Ok(fact) => fact_again(alloc, &fact),
        Err(DecodeFault::Bad(at)) => bad_at(alloc, at),
        Err(DecodeFault::Memory) => Err(Memory),
    }
}

fn fact_again(alloc: Global, fact: &Fact) -> Result<Bytes, Memory>
    ensures { IfOk result (λ t. t ≡ spec.fact_again fact.now) }
{
    let bytes = encode(alloc, fact)?;
    again(alloc, bytes.as_slice())
}

/// The same of the record of a token.
pub fn token_record(alloc: Global, rest: &[u8]) -> Result<Option<Bytes>, Memory> {
    match decoded(alloc, rest)? {
        Some(bytes) => Ok(Some(token(alloc, bytes.as_slice())?)),
        None => Ok(None),
    }
}

fn token(alloc: Global, bytes: &[u8]) -> Result<Bytes, Memory>
    ensures { IfOk result (λ t. t ≡ spec.token_told (tokens.decoded_token bytes.now)) }
{
    match decode_token(alloc, bytes) {
        Ok(token) => again(alloc, encode_token(alloc, token.as_slice())?.as_slice()),
        Err(DecodeFault::Bad(at)) => bad_at(alloc, at),
        Err(DecodeFault::Memory) => Err(Memory),
    }
}

fn again(alloc: Global, bytes: &[u8]) -> Result<Bytes, Memory>
    ensures { IfOk result (λ t. t ≡ spec.again bytes.now) }
{
    let word = encoded(alloc, bytes)?;
    said(alloc, "ok", word.as_slice())
}

fn bad_at(alloc: Global, at: u64) -> Result<Bytes, Memory>
    ensures { IfOk result (λ t. t ≡ spec.bad_at at) }
{
    let text = format!(in alloc; "bad {at}")?;
    bare(alloc, text.as_str())
}
