//! Members of settings.

ghost use Rattle.std.specs.Prelude.{◌≡◌, Option, Result};
ghost use Rattle.serde_json.specs.Data.{Data};
ghost use Rattle.serde_json.specs.View.{view};
ghost use Rattle.sig_json.specs.Answers.{Answers};
ghost use Rattle.sig_settings.specs.declared.fault.ValueFault.{ValueFault};
ghost use Rattle.sig_settings.specs.Members as spec;

use crate::path::{in_member, itself, told};
use crate::{SettingsFault, ValueFault};
use sig_json::Value;
use std::alloc::Global;

/// What a member of settings, or an item of a list in them, may be.
pub trait SettingKind {
    type Kept: Drop;

    ghost said: { Data → Result Self.Kept ValueFault };

    /// What a value says of this kind, and else where in the value the fault stands.
    fn keep(alloc: Global, value: &Value) -> Result<Self::Kept, ValueFault>
        ensures { Answers ValueFault.Memory result (said (view value.now)) };
}

/// Told at the value itself where it is no object.
pub fn whole(alloc: Global, value: &Value) -> Result<(), ValueFault>
    ensures { Answers ValueFault.Memory result (spec.is_whole (view value.now)) }
{
    if value.is_object() {
        return Ok(());
    }
    Err(itself(alloc))
}

/// What a member says; it is told at this member or inside it where it is missing or of another kind.
pub fn member_in<K: SettingKind>(
    alloc: Global,
    object: &Value,
    name: &str,
) -> Result<K::Kept, ValueFault>
    ensures { Answers ValueFault.Memory result (spec.member_at K.said name.now (view object.now)) }
{
    match read_there::<K>(alloc, object, name) {
        Ok(kept) => Ok(kept),
        Err(fault) => Err(in_member(alloc, name, fault)),
    }
}

fn read_there<K: SettingKind>(
    alloc: Global,
    object: &Value,
    name: &str,
) -> Result<K::Kept, ValueFault>
    ensures { Answers ValueFault.Memory result (spec.read_there K.said name.now (view object.now)) }
{
    match object.get(name) {
        Some(member) => K::keep(alloc, member),
        None => Err(itself(alloc)),
    }
}

/// What a member says where it is there; it is told at this member or inside it where it is there and of another kind.
pub fn optional_in<K: SettingKind>(
    alloc: Global,
    object: &Value,
    name: &str,
) -> Result<Option<K::Kept>, ValueFault>
    ensures { Answers ValueFault.Memory result (spec.optional_at K.said name.now (view object.now)) }
{
    match read_given::<K>(alloc, object, name) {
        Ok(kept) => Ok(kept),
        Err(fault) => Err(in_member(alloc, name, fault)),
    }
}

fn read_given<K: SettingKind>(
    alloc: Global,
    object: &Value,
    name: &str,
) -> Result<Option<K::Kept>, ValueFault>
    ensures { Answers ValueFault.Memory result (spec.read_given K.said name.now (view object.now)) }
{
    match object.get(name) {
        Some(member) => Ok(Some(K::keep(alloc, member)?)),
        None => Ok(None),
    }
}

/// A member that has to be there; the fault names it or what is wrong inside it.
#[tactic(auto, unfolding(crate::specs::Members::needed))]
pub fn needed<K: SettingKind>(
    alloc: Global,
    settings: &Value,
    name: &str,
) -> Result<K::Kept, SettingsFault>
    ensures { Answers SettingsFault.Memory result (spec.needed K.said name.now (view settings.now)) }
{
    match member_in::<K>(alloc, settings, name) {
        Ok(kept) => Ok(kept),
        Err(fault) => Err(told(alloc, fault)),
    }
}

/// A member that may be missing; the fault names it or what is wrong inside it, where it is there.
#[tactic(auto, unfolding(crate::specs::Members::optional))]
pub fn optional<K: SettingKind>(
    alloc: Global,
    settings: &Value,
    name: &str,
) -> Result<Option<K::Kept>, SettingsFault>
    ensures { Answers SettingsFault.Memory result (spec.optional K.said name.now (view settings.now)) }
{
    match optional_in::<K>(alloc, settings, name) {
        Ok(kept) => Ok(kept),
        Err(fault) => Err(told(alloc, fault)),
    }
}
