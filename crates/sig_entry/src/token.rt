ghost use Rattle.std.specs.Prelude.{◌≡◌, ◌<◌, ◌^◌, IfOk, length};
ghost use Rattle.sig_json.specs.Answers.{Answers};
ghost use Rattle.sig_fields.specs.Kinds as kinds;
ghost use Rattle.sig_fields.specs.Reading.{Takes, ruled};
ghost use Rattle.sig_entry.specs.Tokens as tokens;

use sig_fields::{BytesField, DecodeFault, Field, PartFault, Reading, put_sized, read_whole};
use sig_json::{Bytes, Memory};
use std::alloc::Global;

// The one kind of a receiver's records.
const TOKEN: u8 = 1;

// Bytes of a record beside its token.
const HEAD_BYTES: usize = 5;

/// The bytes of a token that a receiver took, as a record of its journal holds them. The caller's token has fewer than
/// 2^32 bytes.
pub fn encode_token(alloc: Global, token: &[u8]) -> Result<Bytes, Memory>
    requires { length token.now < 2 ^ 32 }
    ensures { IfOk result (λ b. b ≡ tokens.token_spelling token.now) }
{
    let mut out = Vec::with_capacity(alloc, token.len() + HEAD_BYTES)?;
    out.push(TOKEN)?;
    put_sized(&mut out, token)?;
    Ok(Bytes::from_vec(out))
}

/// The token that bytes spell.
///
/// `Bad` comes exactly where they spell none, with the offset of the first part that is cut or breaks its rule, the kind
/// or the token; where there is none, with that of the first byte after the token.
pub fn decode_token(alloc: Global, bytes: &[u8]) -> Result<Bytes, DecodeFault>
    ensures { Answers DecodeFault.Memory result (tokens.decoded_token bytes.now) }
{
    read_whole::<TokenField>(alloc, bytes)
}

/// A token in its record: 01, a count and so many bytes.
pub struct TokenField;

impl Field for TokenField {
    type Value = Bytes;

    ghost spelled = { tokens.token_spelling };

    ghost read = { tokens.read_token };

    fn put(alloc: Global, value: &Bytes, out: &mut Vec<u8>) -> Result<(), Memory> {
        out.push(TOKEN)?;
        BytesField::put(alloc, value, out)
    }

    fn take(alloc: Global, bytes: &mut Reading<'_>) -> Result<Bytes, PartFault> {
        take_token_kind(bytes)?;
        BytesField::take(alloc, bytes)
    }
}

fn take_token_kind(bytes: &mut Reading<'_>) -> Result<bool, PartFault>
    ensures { Takes (ruled tokens.kind_in kinds.byte bytes.old) result bytes.new }
{
    let begun = bytes.rest();
    let byte = bytes.take_byte()?;
    bytes.accept(begun, if byte == TOKEN { Some(true) } else { None })
}
