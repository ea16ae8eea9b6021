//! Numbers from bytes, the most significant first.

ghost use Rattle.std.specs.Prelude.{◌≡◌, ◌*◌, ◌≤◌, length};
ghost use Rattle.sig_number.specs.Value.{value};
ghost use Rattle.sig_number.specs.Modulus.{number};

/// Writes the limbs of the number that bytes spell, eight bytes to a limb, with zeros above them.
pub(crate) fn read_limbs(out: &mut [u64], bytes: &[u8])
    requires { length bytes.now ≤ 8 * length out.old }
    ensures { value out.new ≡ number bytes.now }
{
    for i in 0..out.len() {
        let end = bytes.len().saturating_sub(8 * i);
        out[i] = limb_of(&bytes[end.saturating_sub(8)..end]);
    }
}

// The limb of at most eight bytes.
fn limb_of(bytes: &[u8]) -> u64
    requires { length bytes.now ≤ 8 }
    ensures { result ≡ number bytes.now }
{
    let mut limb: u64 = 0;
    for byte in bytes {
        limb = limb * 256 + *byte as u64;
    }
    limb
}
