//! Who may push tokens to a receiver.

ghost use Rattle.std.specs.Prelude.{◌≡◌};
ghost use Rattle.serde_json.specs.View.{view};
ghost use Rattle.sig_json.specs.Answers.{Answers};
ghost use Rattle.sig_rxsettings.specs.Principals as spec;

use sig_json::limits::PRINCIPALS;
use sig_json::{Items, Text, Value};
use sig_rxnode::Principal;
use sig_settings::{
    AnyText, BearerText, ListOf, SettingKind, SettingsFault, TextOf, ValueFault, bearers_differ,
    itself, member_in, needed, whole,
};
use std::alloc::Global;

/// The principals of settings with this reader. What is missing or wrong in them is told by its path: `principals` where they
/// are no list of at most 64, and a principal's bearer where it is the reader's or that of a principal before it.
#[tactic(auto, unfolding(crate::specs::Principals::principals_in))]
pub fn principals_in(
    alloc: Global,
    settings: &Value,
    reader: &Text,
) -> Result<Items<Principal>, SettingsFault>
    ensures { Answers SettingsFault.Memory result (spec.principals_in reader.now (view settings.now)) }
{
    let principals = needed::<PrincipalList>(alloc, settings, "principals")?;
    bearers_differ::<Bearer>(alloc, reader, principals.as_slice(), "principals")?;
    Ok(principals)
}

struct PrincipalList;

impl SettingKind for PrincipalList {
    type Kept = Items<Principal>;

    ghost said = { spec.principals_at };

    fn keep(alloc: Global, value: &Value) -> Result<Items<Principal>, ValueFault> {
        let principals = ListOf::<PrincipalObject>::keep(alloc, value)?;
        if principals.as_slice().len() > PRINCIPALS {
            return Err(itself(alloc));
        }
        Ok(principals)
    }
}

/// Principals told apart by their bearers.
pub struct Bearer;

impl TextOf for Bearer {
    type Item = Principal;

    ghost text = { spec.bearer_of };

    fn text_of(item: &Principal) -> &Text {
        &item.bearer
    }
}

struct PrincipalObject;

impl SettingKind for PrincipalObject {
    type Kept = Principal;

    ghost said = { spec.principal_at };

    fn keep(alloc: Global, value: &Value) -> Result<Principal, ValueFault> {
        whole(alloc, value)?;
        let bearer = member_in::<BearerText>(alloc, value, "bearer")?;
        let iss = member_in::<AnyText>(alloc, value, "iss")?;
        Ok(Principal { bearer, iss })
    }
}
