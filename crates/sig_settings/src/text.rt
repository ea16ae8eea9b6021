//! Texts of settings.

ghost use Rattle.std.specs.Prelude.{◌≡◌};
ghost use Rattle.std.specs.Char.{is_ascii_graphic};
ghost use Rattle.std.specs.List.{list_all};
ghost use Rattle.serde_json.specs.View.{view};
ghost use Rattle.sig_settings.specs.Texts as spec;

use crate::{SettingKind, ValueFault, itself};
use sig_json::{Text, Value};
use std::alloc::Global;

/// Any text.
pub struct AnyText;

impl SettingKind for AnyText {
    type Kept = Text;

    ghost said = { spec.text_at };

    fn keep(alloc: Global, value: &Value) -> Result<Text, ValueFault> {
        match value.as_str() {
            Some(text) => Ok(Text::of(alloc, text)?),
            None => Err(itself(alloc)),
        }
    }
}

/// A text that isn't empty.
pub struct FilledText;

impl SettingKind for FilledText {
    type Kept = Text;

    ghost said = { spec.filled_at };

    fn keep(alloc: Global, value: &Value) -> Result<Text, ValueFault> {
        match value.as_str() {
            Some(text) if !text.is_empty() => Ok(Text::of(alloc, text)?),
            _ => Err(itself(alloc)),
        }
    }
}

/// A bearer token (RFC 6750, section 2.1): one or more visible ASCII characters, and so no space and no line end.
pub struct BearerText;

impl SettingKind for BearerText {
    type Kept = Text;

    ghost said = { spec.bearer_at };

    fn keep(alloc: Global, value: &Value) -> Result<Text, ValueFault> {
        match value.as_str() {
            Some(text) if is_bearer(text) => Ok(Text::of(alloc, text)?),
            _ => Err(itself(alloc)),
        }
    }
}

fn is_bearer(text: &str) -> bool
    ensures { result ≡ spec.is_bearer text.now }
{
    !text.is_empty() && are_visible(text.as_bytes())
}

fn are_visible(text: &[u8]) -> bool
    ensures { result ≡ list_all is_ascii_graphic text.now }
{
    text.iter().all(|byte| byte.is_ascii_graphic())
}
