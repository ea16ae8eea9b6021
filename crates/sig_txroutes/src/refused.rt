//! What the transmitter tells in JSON of the tokens that were reported as faulty.

ghost use Rattle.std.specs.Prelude.{◌≡◌, IfOk, OnOk, option_map};
ghost use Rattle.serde_json.specs.Data.{string};
ghost use Rattle.serde_json.specs.View.{members_view, view};
ghost use Rattle.sig_stream.specs.Configurations.{put_given};
ghost use Rattle.sig_txroutes.specs.Documents as spec;

use crate::document::text_value;
use serde_json::Map;
use sig_json::{Memory, Text, Value, put_value};
use sig_terms::RefusedToken;
use std::alloc::Global;

/// A page of the tokens that were reported as faulty, with the place behind it.
pub fn refused_value(alloc: Global, next: u64, tokens: &[RefusedToken]) -> Result<Value, Memory>
    ensures { IfOk result (λ v. view v ≡ spec.refused_data next tokens.now) }
{
    let refused = reported_value(alloc, tokens)?;
    let mut members = Map::new(alloc);
    put_value(alloc, &mut members, "next", Value::from(next))?;
    put_value(alloc, &mut members, "refused", refused)?;
    Ok(Value::Object(members))
}

fn reported_value(alloc: Global, tokens: &[RefusedToken]) -> Result<Value, Memory>
    ensures { IfOk result (λ v. view v ≡ spec.reported_data tokens.now) }
{
    let mut values = Vec::new(alloc);
    for token in tokens {
        values.push(token_value(alloc, token)?)?;
    }
    Ok(Value::Array(values))
}

fn token_value(alloc: Global, token: &RefusedToken) -> Result<Value, Memory>
    ensures { IfOk result (λ v. view v ≡ spec.refused_token_data token.now) }
{
    let stream = text_value(alloc, token.stream.as_str())?;
    let mut members = Map::new(alloc);
    put_value(alloc, &mut members, "number", Value::from(token.number))?;
    put_value(alloc, &mut members, "stream_id", stream)?;
    put_value(alloc, &mut members, "time", Value::from(token.time))?;
    put_optional(alloc, &mut members, "publish_id", &token.id)?;
    put_optional(alloc, &mut members, "code", &token.code)?;
    Ok(Value::Object(members))
}

// A member with a text, where it is given.
fn put_optional(
    alloc: Global,
    members: &mut Map<String, Value>,
    name: &str,
    text: &Option<Text>,
) -> Result<(), Memory>
    ensures { OnOk result (members_view members.new.entries
        ≡ put_given name.now (option_map (λ t. string t) text.now) (members_view members.old.entries)) }
{
    let Some(text) = text else {
        return Ok(());
    };
    let text = text_value(alloc, text.as_str())?;
    put_value(alloc, members, name, text)
}
