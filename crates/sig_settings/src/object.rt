//! The object that settings are.

ghost use Rattle.serde_json.specs.View.{view};
ghost use Rattle.sig_json.specs.Answers.{Answers, result_map};
ghost use Rattle.sig_settings.specs.Objects.{settings_of};

use crate::SettingsFault;
use sig_json::limits::SETTINGS_BYTES;
use sig_json::{JsonFault, Text, Value, read};
use std::alloc::Global;

/// The JSON object that settings are (RFC 8259). `Refused` comes at `length` exactly where there are more than 1,048,576
/// bytes, and at `body` exactly where that isn't so and they spell no object.
pub fn settings_of(alloc: Global, bytes: &[u8]) -> Result<Value, SettingsFault>
    ensures { Answers SettingsFault.Memory (result_map view result) (settings_of bytes.now) }
{
    if bytes.len() > SETTINGS_BYTES {
        return Err(SettingsFault::Refused(Text::of(alloc, "length")?));
    }
    match read(alloc, bytes) {
        Ok(value) if value.is_object() => Ok(value),
        Ok(_) | Err(JsonFault::NotJson) => Err(SettingsFault::Refused(Text::of(alloc, "body")?)),
        Err(JsonFault::Memory) => Err(SettingsFault::Memory),
    }
}
