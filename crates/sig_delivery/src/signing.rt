//! Tokens signed under a key that is prepared once for all of them.

ghost use Rattle.std.specs.Prelude.{◌≡◌, IfOk};
ghost use Rattle.sig_jws.specs.Compact.{signed};

use base64::encoded_len;
use base64::engine::general_purpose::URL_SAFE_NO_PAD;
use sig_json::{Bytes, Memory};
use sig_jws::{MAC_BYTES, PreparedKey};
use std::alloc::Global;

/// The text of header and payload, signed under the key (RFC 7515, section 7.1), as `sig_jws::sign` gives it.
#[tactic(auto, unfolding(sig_jws::specs::Compact::signed))]
pub fn sign_prepared(
    alloc: Global,
    header: &[u8],
    payload: &[u8],
    key: &PreparedKey,
) -> Result<Bytes, Memory>
    ensures { IfOk result (λ text. text ≡ signed header.now payload.now key.now.bytes) }
{
    let room = part_room(header.len())
        .saturating_add(part_room(payload.len()))
        .saturating_add(part_room(MAC_BYTES))
        .saturating_add(2);
    let mut text = String::with_capacity(alloc, room)?;
    URL_SAFE_NO_PAD.encode_string(header, &mut text)?;
    text.push('.')?;
    URL_SAFE_NO_PAD.encode_string(payload, &mut text)?;
    let mac = key.mac(text.as_bytes());
    text.push('.')?;
    URL_SAFE_NO_PAD.encode_string(&mac, &mut text)?;
    Ok(Bytes::from_vec(text.into_bytes()))
}

// Bytes that a part takes in the text.
fn part_room(bytes: usize) -> usize {
    encoded_len(bytes, false).unwrap_or(usize::MAX)
}
