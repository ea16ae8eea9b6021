//! The encoded message (RFC 8017, section 9.2).

ghost use Rattle.std.specs.Prelude.{◌≡◌, ◌≤◌, ◌-◌, ◌∷◌, ◌++◌, length, replicate};
ghost use Rattle.sig_rs256.specs.Encoding.{digest_info, encoded_digest};

/// Bytes of the zero and the DER that stand before a digest.
const PREFIX_BYTES: usize = 20;

/// Bytes of a digest with what stands before it.
const LAST_BYTES: usize = 52;

/// The zero and the DER of DigestInfo that stand before a digest of SHA-256 (RFC 8017, section 9.2, note 1).
const DIGEST_PREFIX: [u8; PREFIX_BYTES] = [
    0x00, 0x30, 0x31, 0x30, 0x0d, 0x06, 0x09, 0x60, 0x86, 0x48, 0x01, 0x65, 0x03, 0x04, 0x02, 0x01,
    0x05, 0x00, 0x04, 0x20,
];

/// Writes a digest as an encoded message that fills the bytes.
pub(crate) fn put_encoded(out: &mut [u8], digest: &[u8; 32])
    requires { 62 ≤ length out.old }
    ensures { out.new ≡ encoded_digest (length out.old) digest.now }
{
    let (padding, last) = out.split_at_mut(out.len() - LAST_BYTES);
    put_padding(padding);
    put_digest(last, digest);
}

// Writes the zero, the one and the padding.
fn put_padding(out: &mut [u8])
    requires { 2 ≤ length out.old }
    ensures { out.new ≡ 0 ∷ 1 ∷ replicate (length out.old - 2) 255 }
{
    out.fill(255);
    out[0] = 0;
    out[1] = 1;
}

// Writes a digest with what stands before it.
fn put_digest(out: &mut [u8], digest: &[u8; 32])
    requires { length out.old ≡ 52 }
    ensures { out.new ≡ 0 ∷ digest_info ++ digest.now }
{
    let (prefix, rest) = out.split_at_mut(PREFIX_BYTES);
    prefix.copy_from_slice(&DIGEST_PREFIX);
    rest.copy_from_slice(digest);
}
