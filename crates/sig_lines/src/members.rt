//! What the members of a line's object are.

use sig_json::limits::LAST_NUMBER;
use sig_json::{Items, Memory, Text, Value, present, text_of, whole_of};
use std::alloc::Global;

/// Whether the member is a text where it is there.
pub fn is_text_or_missing(value: &Value, name: &str) -> bool {
    !present(value, name) || text_of(value, name).is_some()
}

/// The member's text, none where it has none.
pub fn copy_member(alloc: Global, value: &Value, name: &str) -> Result<Option<Text>, Memory> {
    match text_of(value, name) {
        Some(text) => Ok(Some(Text::of(alloc, text)?)),
        None => Ok(None),
    }
}

/// The member's whole number from 0 to 2^62, none where it has none.
pub fn number_at(value: &Value, name: &str) -> Option<u64> {
    let number = whole_of(value, name)?;
    if number < 0 || number > LAST_NUMBER as i128 {
        return None;
    }
    Some(number as u64)
}

/// The texts of a list, none where something else stands in it.
pub fn texts_in(alloc: Global, list: &[Value]) -> Result<Option<Items<Text>>, Memory> {
    let mut texts = Vec::new(alloc);
    for item in list {
        let Some(text) = item.as_str() else {
            return Ok(None);
        };
        texts.push(Text::of(alloc, text)?)?;
    }
    Ok(Some(Items::of(texts)))
}

/// The list of the texts.
pub fn texts_value(alloc: Global, texts: &[Text]) -> Result<Value, Memory> {
    let mut values = Vec::new(alloc);
    for text in texts {
        values.push(Value::String(String::from_str(alloc, text.as_str())?))?;
    }
    Ok(Value::Array(values))
}
