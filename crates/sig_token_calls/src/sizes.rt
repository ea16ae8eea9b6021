//! How many bytes texts and numbers have in JSON with no space, by counting.

ghost use Rattle.std.specs.Prelude.{◌≡◌, ◌+◌, ◌<◌, IfOk, length};
ghost use Rattle.std.specs.Fmt.{decimal};
ghost use Rattle.json.specs.Print.{escape_byte};
ghost use Rattle.sig_token_calls.specs.Sizes.{audience_bytes, escaped_bytes, own_bytes, texts_bytes};

use sig_json::{Memory, Text};
use sig_terms::StreamConf;

/// The sum of two sizes. No memory holds as many as 2^64 bytes.
pub(crate) fn joined(one: usize, other: usize) -> Result<usize, Memory>
    ensures { IfOk result (λ n. n ≡ one + other) }
{
    one.checked_add(other).ok_or(Memory)
}

// The bytes that a byte takes in a JSON string (RFC 8259, section 7).
#[tactic(auto, unfolding(json::specs::Print::escape_byte))]
fn byte_size(byte: u8) -> usize
    ensures { result ≡ length (escape_byte byte) }
{
    match byte {
        b'"' | b'\\' | 8 | 9 | 10 | 12 | 13 => 2,
        0..=31 => 6,
        _ => 1,
    }
}

// The bytes of a text in a JSON string, without the quotes.
fn escaped_size(text: &[u8]) -> Result<usize, Memory>
    ensures { IfOk result (λ n. n ≡ escaped_bytes text.now) }
{
    let mut size = 0;
    for byte in text {
        size = joined(size, byte_size(*byte))?;
    }
    Ok(size)
}

fn text_size(text: &Text) -> Result<usize, Memory>
    ensures { IfOk result (λ n. n ≡ escaped_bytes text.now) }
{
    escaped_size(text.as_str().as_bytes())
}

// The bytes of texts in a JSON list, of which there is at least one: quotes, and a comma or bracket for each, and one bracket.
fn texts_size(texts: &[Text]) -> Result<usize, Memory>
    ensures { IfOk result (λ n. n ≡ texts_bytes texts.now) }
{
    let mut size = 1;
    for text in texts {
        let own = text_size(text)?;
        let own = joined(own, 3)?;
        size = joined(size, own)?;
    }
    Ok(size)
}

// The bytes of an audience: of one text alone, or of a list.
fn audience_size(audience: &[Text]) -> Result<usize, Memory>
    ensures { IfOk result (λ n. n ≡ audience_bytes audience.now) }
{
    match audience {
        [] => Ok(2),
        [text] => joined(text_size(text)?, 2),
        texts => texts_size(texts),
    }
}

// How many digits a number has.
fn digits_size(number: u64) -> usize
    requires { 0 < number }
    ensures { result ≡ length (decimal number) }
{
    number.ilog10() as usize + 1
}

/// The bytes that a token's payload has more than one that names no stream: those of its audience, its issuer, its stream's
/// name and its number.
pub(crate) fn own_size(conf: &StreamConf, number: u64) -> Result<usize, Memory>
    requires { 0 < number }
    ensures { IfOk result (λ n. n ≡ own_bytes conf.now number) }
{
    let audience = audience_size(conf.aud.as_slice())?;
    let issuer = text_size(&conf.iss)?;
    let name = text_size(&conf.stream)?;
    let texts = joined(audience, joined(issuer, name)?)?;
    let all = joined(texts, digits_size(number))?;
    Ok(all - 3)
}
