//! Keys of settings.

ghost use Rattle.std.specs.Prelude.{◌≡◌};
ghost use Rattle.std.specs.List.{list_all};
ghost use Rattle.serde_json.specs.View.{view};
ghost use Rattle.sig_settings.specs.Keys as spec;

use crate::member::{member_in, optional_in, whole};
use crate::{SettingKind, ValueFault, found, itself};
use sig_json::limits::KEY_NAME_BYTES;
use sig_json::{Bytes, Text, Value};
use sig_jws::{Key, key_of};
use std::alloc::Global;

/// An object `{"k", "kid"}`: the key's 32 to 64 bytes in base64url without padding (RFC 7518, section 6.4), and
/// its name, 1 to 64 of `A-Z a-z 0-9 . _ -`, where it has one.
pub struct KeyObject;

impl SettingKind for KeyObject {
    type Kept = Key;

    ghost said = { spec.key_at };

    fn keep(alloc: Global, value: &Value) -> Result<Key, ValueFault> {
        whole(alloc, value)?;
        let bytes = member_in::<KeyBytes>(alloc, value, "k")?;
        let kid = optional_in::<KeyName>(alloc, value, "kid")?;
        Ok(Key { kid, bytes })
    }
}

struct KeyBytes;

impl SettingKind for KeyBytes {
    type Kept = Bytes;

    ghost said = { spec.key_bytes_at };

    fn keep(alloc: Global, value: &Value) -> Result<Bytes, ValueFault> {
        match value.as_str() {
            Some(word) => found(alloc, key_of(alloc, word)?),
            None => Err(itself(alloc)),
        }
    }
}

/// A key's name: 1 to 64 of `A-Z a-z 0-9 . _ -`.
pub struct KeyName;

impl SettingKind for KeyName {
    type Kept = Text;

    ghost said = { spec.key_name_at };

    fn keep(alloc: Global, value: &Value) -> Result<Text, ValueFault> {
        match value.as_str() {
            Some(name) if is_key_name(name) => Ok(Text::of(alloc, name)?),
            _ => Err(itself(alloc)),
        }
    }
}

fn is_key_name(name: &str) -> bool
    ensures { result ≡ spec.is_key_name name.now }
{
    !name.is_empty() && name.len() <= KEY_NAME_BYTES && are_key_name_bytes(name.as_bytes())
}

fn are_key_name_bytes(name: &[u8]) -> bool
    ensures { result ≡ list_all spec.is_key_name_byte name.now }
{
    name.iter().all(|byte| byte.is_ascii_alphanumeric()
        || *byte == b'.'
        || *byte == b'_'
        || *byte == b'-')
}
