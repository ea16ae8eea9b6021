//! The numbers of lines.

ghost use Rattle.std.specs.Prelude.{◌≡◌, option_and_then};
ghost use Rattle.std.specs.List.{list_all};
ghost use Rattle.sig_script.specs.Numbers as spec;

use sig_json::limits::LAST_NUMBER;

/// The number that a word is: decimal, without leading zeros, up to 2^62. None exactly where it is none.
pub(crate) fn number_in(word: &str) -> Option<u64>
    ensures { result ≡ spec.number_of word.now }
{
    if !is_decimal(word.as_bytes()) {
        return None;
    }
    up_to_last(word.parse::<u64>().ok())
}

fn up_to_last(number: Option<u64>) -> Option<u64>
    ensures { result ≡ option_and_then spec.within number }
{
    match number {
        Some(number) if number <= LAST_NUMBER => Some(number),
        _ => None,
    }
}

fn is_decimal(word: &[u8]) -> bool
    ensures { result ≡ spec.is_decimal word.now }
{
    match word {
        [] => false,
        [first] => is_digit(*first),
        [first, ..] => *first != b'0' && are_digits(word),
    }
}

fn is_digit(byte: u8) -> bool
    ensures { result ≡ spec.is_digit byte }
{
    byte.is_ascii_digit()
}

fn are_digits(bytes: &[u8]) -> bool
    ensures { result ≡ list_all spec.is_digit bytes.now }
{
    for byte in bytes {
        if !is_digit(*byte) {
            return false;
        }
    }
    true
}
