//! The audience of a payload: a text, or a list of texts (RFC 7519, section 4.1.3).

ghost use Rattle.std.specs.Prelude.{◌≡◌, ◌∷◌, [], IfOk, Some, bytes_eq};
ghost use Rattle.std.specs.List.{list_any};
ghost use Rattle.serde_json.specs.View.{items_view, view};
ghost use Rattle.sig_set.specs.Claims.{audience_in, audience_of, texts_of};
ghost use Rattle.sig_set.specs.Tests.{where_there};

use sig_json::{Items, Memory, Text, Value};
use std::alloc::Global;

/// The payload's audience, none where `aud` is neither a text nor a list of texts.
pub fn audience(alloc: Global, payload: &Value) -> Result<Option<Items<Text>>, Memory>
    ensures { IfOk result (λ texts. texts ≡ audience_in (Some (view payload.now))) }
{
    match payload.get("aud") {
        None => Ok(None),
        Some(aud) => texts(alloc, aud),
    }
}

fn texts(alloc: Global, aud: &Value) -> Result<Option<Items<Text>>, Memory>
    ensures { IfOk result (λ texts. texts ≡ audience_of (view aud.now)) }
{
    match aud {
        Value::String(text) => one_text(alloc, text.as_str()),
        Value::Array(items) => all_texts(alloc, items.as_slice()),
        _ => Ok(None),
    }
}

fn one_text(alloc: Global, text: &str) -> Result<Option<Items<Text>>, Memory>
    ensures { IfOk result (λ texts. texts ≡ Some (text.now ∷ [])) }
{
    let mut texts = Vec::new(alloc);
    texts.push(Text::of(alloc, text)?)?;
    Ok(Some(Items::of(texts)))
}

fn all_texts(alloc: Global, items: &[Value]) -> Result<Option<Items<Text>>, Memory>
    ensures { IfOk result (λ texts. texts ≡ texts_of (items_view items.now)) }
{
    let mut texts = Vec::new(alloc);
    for item in items {
        let Some(text) = item.as_str() else {
            return Ok(None);
        };
        texts.push(Text::of(alloc, text)?)?;
    }
    Ok(Some(Items::of(texts)))
}

/// Whether there is an audience, and it has this name.
pub fn has_name(audience: &Option<Items<Text>>, name: &str) -> bool
    ensures { result ≡ where_there (list_any (bytes_eq name.now)) audience.now }
{
    match audience {
        None => false,
        Some(texts) => is_among(texts.as_slice(), name),
    }
}

fn is_among(texts: &[Text], name: &str) -> bool
    ensures { result ≡ list_any (bytes_eq name.now) texts.now }
{
    texts.iter().any(|text| name == text.as_str())
}
