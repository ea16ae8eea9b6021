ghost use Rattle.std.specs.Prelude.{◌≡◌, ◌≤◌, ◌<◌, [], length, IfSome, option_map};
ghost use Rattle.std.specs.List.{position};
ghost use Rattle.std.specs.Str.{str_eq_ignore_ascii_case};
ghost use Rattle.sig_http.specs.Values as spec;

use sig_json::limits::RESPONSE_BODY_BYTES;

/// Whether the bytes are this word, in any case of its ASCII letters.
pub fn is_word(bytes: &[u8], word: &str) -> bool
    ensures { result ≡ str_eq_ignore_ascii_case bytes.now word.now }
{
    bytes.eq_ignore_ascii_case(word.as_bytes())
}

/// The number that a digit after a number makes. One that passes every limit is kept as it is.
pub fn number_with(base: usize, number: usize, digit: u8) -> usize
    requires { base ≤ 16 }
    ensures { result ≡ spec.number_with base number digit }
{
    if number > RESPONSE_BODY_BYTES {
        return number;
    }
    number * base + digit as usize
}

/// What a hexadecimal digit stands for.
pub fn hex_digit(byte: u8) -> Option<u8>
    ensures { result ≡ spec.hex_digit byte }
{
    match byte {
        b'0'..=b'9' => Some(byte - b'0'),
        b'A'..=b'F' => Some(byte - b'A' + 10),
        b'a'..=b'f' => Some(byte - b'a' + 10),
        _ => None,
    }
}

/// Whether the bytes are one or more decimal digits.
pub fn is_number(bytes: &[u8]) -> bool
    ensures { result ≡ spec.is_number bytes.now }
{
    for byte in bytes {
        if !byte.is_ascii_digit() {
            return false;
        }
    }
    !bytes.is_empty()
}

/// The number that decimal digits are. One that passes every limit is some number that does.
pub fn number_of(digits: &[u8]) -> usize
    ensures { result ≡ spec.number_of digits.now }
{
    let mut number = 0;
    for digit in digits {
        number = number_with(10, number, digit.saturating_sub(b'0'));
    }
    number
}

/// The digits after the zeros that come first.
pub fn skip_zeros(digits: &[u8]) -> &[u8]
    ensures { result.now ≡ spec.skip_zeros digits.now }
{
    let mut rest = digits;
    while let Some((b'0', more)) = rest.split_first() {
        rest = more;
    }
    rest
}

/// Whether both write one number in decimal digits.
pub fn is_same_number(first: &[u8], second: &[u8]) -> bool
    ensures { result ≡ spec.is_same_number first.now second.now }
{
    skip_zeros(first) == skip_zeros(second)
}

/// Whether `close` stands in this list of the field `connection`.
#[tactic(auto, using(crate::proofs::TokenLemmas::closes_first, crate::proofs::TokenLemmas::closes_last))]
pub fn says_close(value: &[u8]) -> bool
    ensures { result ≡ spec.says_close value.now }
{
    let mut rest = value;
    'tokens: while let Some(at) = first_comma(rest) {
        if is_close(rest.split_at(at).0) {
            return true;
        }
        rest = rest.split_at(at + 1).1;
    }
    is_close(rest)
}

// The place of the first comma.
#[tactic(auto, using(crate::proofs::TokenLemmas::within_text))]
fn first_comma(value: &[u8]) -> Option<usize>
    ensures place { result ≡ position spec.is_comma value.now }
    ensures within { IfSome result (λ at. at < length value.now) }
{
    value.iter().position(|byte| *byte == b',')
}

// Whether this is `close`, with spaces and tabs round it.
fn is_close(token: &[u8]) -> bool
    ensures { result ≡ spec.is_close token.now }
{
    let rest = skip_blank(token);
    let word = rest.split_at(rest.len().min(5));
    is_word(word.0, "close") && skip_blank(word.1).is_empty()
}

// The bytes after the spaces and tabs that come first.
fn skip_blank(bytes: &[u8]) -> &[u8]
    ensures { result.now ≡ spec.skip_blank bytes.now }
{
    let mut rest = bytes;
    while let Some((b' ' | b'\t', more)) = rest.split_first() {
        rest = more;
    }
    rest
}

/// What follows the word `Bearer` and one space (RFC 6750, section 2.1).
pub fn after_bearer(value: &[u8]) -> Option<&[u8]>
    ensures { option_map (λ v. v.now) result ≡ spec.after_bearer value.now }
{
    if value.len() < 7 {
        return None;
    }
    let parts = value.split_at(7);
    if is_word(parts.0, "bearer ") {
        Some(parts.1)
    } else {
        None
    }
}
