//! What the readers and the writers of bodies share.

ghost use Rattle.std.specs.Prelude.{◌≡◌, IfOk, false, option_and_then, option_map};
ghost use Rattle.serde_json.specs.View.{items_view, view};
ghost use Rattle.serde_json.specs.Written.{compact_text, has_float};
ghost use Rattle.sig_json.specs.Json.{json_of, object_itself};
ghost use Rattle.sig_delivery.specs.Bodies.{texts_of};

use sig_json::{Bytes, Items, JsonFault, Memory, Text, Value, read};
use std::alloc::Global;

/// The value of a body, where it is a JSON object.
pub fn object_in(alloc: Global, body: &[u8]) -> Result<Option<Value>, Memory>
    ensures { IfOk result (λ value. option_map view value ≡ option_and_then object_itself (json_of body.now)) }
{
    match read(alloc, body) {
        Ok(value) if value.is_object() => Ok(Some(value)),
        Ok(_) => Ok(None),
        Err(JsonFault::NotJson) => Ok(None),
        Err(JsonFault::Memory) => Err(Memory),
    }
}

/// The texts of a list, where it has nothing else.
#[tactic(auto, using(crate::proofs::Collected::behind_nothing, crate::proofs::Collected::behind_all, crate::proofs::Collected::one_behind))]
pub fn texts_in(alloc: Global, items: &[Value]) -> Result<Option<Items<Text>>, Memory>
    ensures { IfOk result (λ texts. texts ≡ texts_of (items_view items.now)) }
{
    let mut texts = Vec::new(alloc);
    for item in items {
        let Some(text) = item.as_str() else {
            return Ok(None);
        };
        texts.push(Text::of(alloc, text)?)?;
    }
    Ok(Some(Items::of(texts)))
}

/// The text of a value in which no fraction stands.
pub fn value_text(alloc: Global, value: &Value) -> Result<Bytes, Memory>
    requires { has_float (view value.now) ≡ false }
    ensures { IfOk result (λ text. text ≡ compact_text (view value.now)) }
{
    let text = value.to_string(alloc)?;
    Ok(Bytes::from_vec(text.into_bytes()))
}
