ghost use Rattle.std.specs.Prelude.{◌≡◌, IfOk, OnErr, Some, option_map};
ghost use Rattle.serde_json.specs.Data.{no_members, object, put};
ghost use Rattle.serde_json.specs.View.{view, members_view};
ghost use Rattle.sig_json.specs.Payloads.{put_kept, spelled, whole_data};

use crate::{JsonFault, MemberKind, Memory, Text, read};
use serde_json::{Map, Value};
use std::alloc::Global;

/// A JSON object that is being written (an event's payload, a subject, claims), with the members that were put so far.
pub type Payload = Map<String, Value>;

/// Puts a member, in place of one of that name. Where memory runs out the payload is as before.
pub fn put_member<K: MemberKind>(
    alloc: Global,
    payload: &mut Payload,
    name: &str,
    kept: &K::Kept,
) -> Result<(), Memory>
    ensures put { IfOk result (λ _. members_view payload.new.entries
        ≡ put_kept name.now (Some (K.kept kept.now)) (members_view payload.old.entries)) }
    ensures err { OnErr result (members_view payload.new.entries ≡ members_view payload.old.entries) }
{
    let value = K::write(alloc, kept)?;
    put_value(alloc, payload, name, value)
}

/// Puts a member where there is one. Where memory runs out the payload is as before.
pub fn put_optional_member<K: MemberKind>(
    alloc: Global,
    payload: &mut Payload,
    name: &str,
    kept: &Option<K::Kept>,
) -> Result<(), Memory>
    ensures put { IfOk result (λ _. members_view payload.new.entries
        ≡ put_kept name.now (option_map K.kept kept.now) (members_view payload.old.entries)) }
    ensures err { OnErr result (members_view payload.new.entries ≡ members_view payload.old.entries) }
{
    match kept {
        Some(kept) => put_member::<K>(alloc, payload, name, kept),
        None => Ok(()),
    }
}

/// Puts a member with this value, in place of one of that name; the value is kept as it is, by no rule. Where memory
/// runs out the payload is as before.
pub fn put_value(
    alloc: Global,
    payload: &mut Payload,
    name: &str,
    value: Value,
) -> Result<(), Memory>
    ensures put { IfOk result (λ _. members_view payload.new.entries ≡ put name.now (view value) (members_view payload.old.entries)) }
    ensures err { OnErr result (members_view payload.new.entries ≡ members_view payload.old.entries) }
{
    let key = String::from_str(alloc, name)?;
    payload.insert(key, value)?;
    Ok(())
}

/// The value that a kept text spells, null where it spells none.
pub fn value_spelled(alloc: Global, text: &Text) -> Result<Value, Memory>
    ensures { IfOk result (λ v. view v ≡ spelled text.now) }
{
    match read(alloc, text.as_str().as_bytes()) {
        Ok(value) => Ok(value),
        Err(JsonFault::NotJson) => Ok(Value::Null),
        Err(JsonFault::Memory) => Err(Memory),
    }
}

// A whole number as JSON, null outside of -2^63 to 2^64 - 1.
pub(crate) fn whole_value(whole: i128) -> Value
    ensures { view result ≡ whole_data whole }
{
    if let Ok(whole) = u64::try_from(whole) {
        return Value::from(whole);
    }
    match i64::try_from(whole) {
        Ok(whole) => Value::from(whole),
        Err(_) => Value::Null,
    }
}
