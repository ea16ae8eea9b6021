ghost use Rattle.std.specs.Prelude.{◌≡◌, IfOk};
ghost use Rattle.serde_json.specs.View.{view, members_view};
ghost use Rattle.sig_json.specs.Answers.{Answers};
ghost use Rattle.sig_json.specs.Checks.{decided, first_failing};
ghost use Rattle.sig_json.specs.Members.{payload_checks};
ghost use Rattle.sig_json.specs.Payloads.{put_all};
ghost use Rattle.sig_caep.specs.Events.{common_in, common_kept};
ghost use Rattle.sig_caep.specs.Table.{common_rules};

use crate::Initiator;
use serde_json::Value;
use sig_json::{
    Copied, Memory, OneOf, Payload, PayloadFault, Same, Text, TextOrObject, Whole, copy_optional,
    optional_member, put_optional_member,
};
use std::alloc::Global;

/// The members that every event of CAEP may have (CAEP 1.0, section 2).
pub struct Common {
    /// When the event happened, in whole seconds since 1970.
    pub event_timestamp: Option<i128>,
    /// Who brought it about.
    pub initiating_entity: Option<Initiator>,
    /// The reason for administrators, a text or an object, as canonical JSON text.
    pub reason_admin: Option<Text>,
    /// The reason for the end user, likewise.
    pub reason_user: Option<Text>,
}

impl Drop for Common {
    fn drop(self) {
        let Common {
            event_timestamp: _,
            initiating_entity: _,
            reason_admin,
            reason_user,
        } = self;
        drop(reason_admin);
        drop(reason_user);
    }
}

impl Common {
    #[tactic(auto, using(sig_json::proofs::Decided::none_fails, sig_json::proofs::Decided::value_is, sig_json::proofs::Decided::one_fails, sig_json::proofs::Decided::rest_decides, sig_json::proofs::Decided::part_decides))]
    /// The common members of a payload, or the fault of the first one that is wrong.
    pub(crate) fn from_json(alloc: Global, payload: &Value) -> Result<Common, PayloadFault>
        ensures { Answers PayloadFault.Memory result
            (decided (first_failing (payload_checks common_rules (view payload.now))) (common_in (view payload.now))) }
    {
        let event_timestamp = optional_member::<Whole>(alloc, payload, "event_timestamp")?;
        let initiating_entity = optional_member::<OneOf<Initiator>>(
            alloc,
            payload,
            "initiating_entity",
        )?;
        let reason_admin = optional_member::<TextOrObject>(alloc, payload, "reason_admin")?;
        let reason_user = optional_member::<TextOrObject>(alloc, payload, "reason_user")?;
        Ok(Common {
            event_timestamp,
            initiating_entity,
            reason_admin,
            reason_user,
        })
    }

    /// Puts those that are there.
    pub(crate) fn put(&self, alloc: Global, payload: &mut Payload) -> Result<(), Memory>
        ensures { IfOk result (λ _. members_view payload.new.entries
            ≡ put_all common_rules (common_kept self.now) (members_view payload.old.entries)) }
    {
        put_optional_member::<Whole>(alloc, payload, "event_timestamp", &self.event_timestamp)?;
        put_optional_member::<OneOf<Initiator>>(
            alloc,
            payload,
            "initiating_entity",
            &self.initiating_entity,
        )?;
        put_optional_member::<TextOrObject>(alloc, payload, "reason_admin", &self.reason_admin)?;
        put_optional_member::<TextOrObject>(alloc, payload, "reason_user", &self.reason_user)
    }

    /// Equal members.
    pub fn copy(&self, alloc: Global) -> Result<Common, Memory>
        ensures { IfOk result (λ c. c ≡ self.now) }
    {
        Ok(Common {
            event_timestamp: self.event_timestamp,
            initiating_entity: self.initiating_entity,
            reason_admin: copy_optional(alloc, &self.reason_admin)?,
            reason_user: copy_optional(alloc, &self.reason_user)?,
        })
    }
}

impl Copied for Common {
    fn copied(&self, alloc: Global) -> Result<Common, Memory> {
        self.copy(alloc)
    }
}

impl Same for Common {
    fn same(&self, other: &Common) -> bool {
        self.event_timestamp == other.event_timestamp
            && self.initiating_entity.same(&other.initiating_entity)
            && self.reason_admin.same(&other.reason_admin)
            && self.reason_user.same(&other.reason_user)
    }
}
