//! Numbers of subjects, under which rows are looked for. Identical subjects have one number, and others may have it too.

ghost use Rattle.std.specs.Prelude.{◌≡◌};
ghost use Rattle.sig_sessions.specs.Fingerprint as spec;

use sig_json::Text;
use sig_subject::{Plain, Simple};

/// What the number of no bytes is: the offset of FNV-1a in 64 bits.
pub(crate) const FIRST: u64 = 0xcbf2_9ce4_8422_2325;

/// By what each byte multiplies: the prime of FNV-1a in 64 bits.
pub(crate) const PRIME: u64 = 0x0000_0100_0000_01b3;

/// The number with one more byte.
#[tactic(auto, unfolding(crate::specs::Fingerprint::with_byte))]
pub(crate) fn with_byte(number: u64, byte: u8) -> u64
    ensures { result ≡ spec.with_byte number byte }
{
    (number ^ byte as u64).wrapping_mul(PRIME)
}

/// The number of an identifier.
pub(crate) fn of_simple(simple: &Simple) -> u64
    ensures { result ≡ spec.of_simple simple.now }
{
    match simple {
        Simple::Plain(plain) => with_plain(FIRST, plain),
        Simple::Aliases { identifiers } => {
            with_plains(with_byte(FIRST, 10), identifiers.as_slice())
        }
    }
}

fn with_plains(number: u64, identifiers: &[Plain]) -> u64
    ensures { result ≡ spec.with_plains number identifiers.now }
{
    let mut grown = number;
    for plain in identifiers {
        grown = with_plain(grown, plain);
    }
    grown
}

fn with_plain(number: u64, plain: &Plain) -> u64
    ensures { result ≡ spec.with_plain number plain.now }
{
    match plain {
        Plain::Account { uri } => with_text(number, 0, uri),
        Plain::Email { email } => with_text(number, 1, email),
        Plain::IssSub { iss, sub } => with_text(with_text(number, 2, iss), 2, sub),
        Plain::Opaque { id } => with_text(number, 3, id),
        Plain::Phone { phone_number } => with_text(number, 4, phone_number),
        Plain::Did { url } => with_text(number, 5, url),
        Plain::Uri { uri } => with_text(number, 6, uri),
        Plain::JwtId { iss, jti } => with_text(with_text(number, 7, iss), 7, jti),
        Plain::Saml {
            issuer,
            assertion_id,
        } => with_text(with_text(number, 8, issuer), 8, assertion_id),
        Plain::Unknown { canon } => with_text(number, 9, canon),
    }
}

// The number with a mark of what comes, and a text.
fn with_text(number: u64, mark: u8, text: &Text) -> u64
    ensures { result ≡ spec.with_text number mark text.now }
{
    with_bytes(with_byte(number, mark), text.as_str().as_bytes())
}

fn with_bytes(number: u64, bytes: &[u8]) -> u64
    ensures { result ≡ spec.with_bytes number bytes.now }
{
    let mut grown = number;
    for byte in bytes {
        grown = with_byte(grown, *byte);
    }
    grown
}
