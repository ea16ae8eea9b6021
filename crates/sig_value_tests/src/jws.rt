//! What is printed of a key, of which no contract speaks.

use sig_json::Bytes;
use sig_jws::Key;
use std::test::Fail;

#[test]
fn a_keys_bytes_are_kept_out_of_texts(rt: HostRuntime) -> Result<(), Fail> {
    let key = Key {
        kid: None,
        bytes: Bytes::of(rt.alloc(), b"secret")?,
    };
    let text = format!(in rt.alloc(); "{key:?}")?;
    assert!(rt; text.as_str() == "Key { kid: None, .. }");
    Ok(())
}
