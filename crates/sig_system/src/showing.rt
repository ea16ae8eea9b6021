//! What is shown of a line.

ghost use Rattle.std.specs.Prelude.{◌≡◌, IfOk, take};
ghost use Rattle.sig_system.specs.Notes as spec;

use std::alloc::{AllocError, Global};

/// How many bytes of a line are told at most, so that one write takes it.
pub const NOTE_BYTES: usize = 900;

/// What is shown of a line: `NOTE_BYTES` bytes at most, with a question mark for each that is no printable character of ASCII.
pub fn shown(alloc: Global, line: &str) -> Result<Vec<u8>, AllocError>
    ensures { IfOk result (λ bytes. bytes.items ≡ spec.shown line.now) }
{
    let mut bytes = Vec::new(alloc);
    for byte in front_of(line.as_bytes()) {
        bytes.push(shown_byte(*byte))?;
    }
    Ok(bytes)
}

// The first `NOTE_BYTES` bytes.
fn front_of(bytes: &[u8]) -> &[u8]
    ensures { result.now ≡ take NOTE_BYTES bytes.now }
{
    if bytes.len() <= NOTE_BYTES {
        bytes
    } else {
        &bytes[..NOTE_BYTES]
    }
}

fn shown_byte(byte: u8) -> u8
    ensures { result ≡ spec.shown_byte byte }
{
    if byte > 31 && byte < 127 { byte } else { b'?' }
}
